//! What is tested before a delivery, and what waits after it.
ghost use Rattle.std.specs.Prelude.{◌≡◌, false, cond, not, ℕ, ◌≤◌, eqb, length};
ghost use Rattle.model_base.specs.Finite.{all_to};
ghost use Rattle.model_sheet.specs.Problem.{max_agents};
ghost use Rattle.abt_record.specs.Abstract.{row_of};
ghost use Rattle.abt_record_laws.specs.Held.{held_at, Clean};
ghost use Rattle.abt_engine.specs.Answers.{ending_of};
ghost use Rattle.support_rejection.specs.Rejections.{rejection_number};
ghost use Rattle.abt_engine.specs.Refused.{rejected_number};
ghost use Rattle.abt_engine.specs.Working.{ends_by, tested_by};

use crate::Ending;
use abt_packed::digit;
use abt_shape::places::{is_line, lines_of};
use support_rejection::Rejection;

/// Returns the rows of counts with 0 in the digits that belong to no channel.
pub fn clear_unused(counts: [u64; 12]) -> [u64; 12]
    ensures { (length result ≡ 12) × ((i j : ℕ) → row_of result i j ≡ held_at counts i j) }
{
    let mut rows = counts;
    for (i, row) in rows.iter_mut().enumerate() {
        *row = lines_of(*row, i as u8 + 1);
    }
    rows
}

/// Returns the first of `BadNumbers` (6), `VerdictStands` (7) and `EmptyChannel` (8) that a
/// delivery in a network in shape meets, if it meets one. `n` is at most 12.
#[tactic(auto, using(crate::proofs::Testing::good))]
pub fn first_rejection(
    n: u8,
    unsolvable: bool,
    counts: &[u64; 12],
    from: u8,
    to: u8,
) -> Option<Rejection>
    requires { n ≤ 12 }
    ensures { rejected_number result ≡ tested_by n unsolvable counts.now from to }
{
    if !is_line(n, from, to) {
        Some(Rejection::BadNumbers)
    } else if unsolvable {
        Some(Rejection::VerdictStands)
    } else if digit(counts[from as usize - 1], to) == 0 {
        Some(Rejection::EmptyChannel)
    } else {
        None
    }
}

/// Returns whether a message waits on a channel of the agents 1 to `n`, at most 12. The rows of
/// counts are clean, as `clear_unused` leaves them. The last senders are looked at first: mostly it
/// is they that have something.
pub fn waits(counts: &[u64; 12], n: u8) -> bool
    requires { n ≤ 12 }
    ensures { Clean counts.now → result ≡ not (all_to n (λ i. all_to max_agents (λ j. eqb (held_at counts.now i j) 0))) }
{
    for row in counts[..n as usize].iter().rev() {
        if *row != 0 {
            return true;
        }
    }
    false
}

/// Returns how a network in shape stands: the verdict comes first, then that nothing waits, then
/// that the last round of a run delivered nothing (`jammed`).
pub fn ending_at(unsolvable: bool, waits: bool, jammed: bool) -> Ending
    ensures { ending_of result ≡ ends_by false unsolvable (not waits) (cond jammed (rejection_number Rejection.NoRoom) 0) }
{
    if unsolvable {
        Ending::Unsolvable
    } else if !waits {
        Ending::Plan
    } else if jammed {
        Ending::Jammed
    } else {
        Ending::Open
    }
}
