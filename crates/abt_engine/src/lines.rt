//! The visits of a round still ahead, one at a time.
ghost use Rattle.std.specs.Prelude.{◌≡◌, [], ℕ, List, ◌≤◌, MatchOption};
ghost use Rattle.abt_engine.specs.Lines.{ahead, NextVisit};

use abt_packed::{first_digit, one_less};

/// The channel to visit, and what is left of its sender's channels after it.
#[derive(Clone, Copy, Debug, PartialEq, Eq)]
pub struct Visit {
    /// The sender.
    pub from: u8,
    /// The receiver.
    pub to: u8,
    /// How often each of the sender's channels is still to be visited: hexadecimal digit k for
    /// receiver k, from 1 at the low end.
    pub rest: u64,
}

// The first visit of a sender that has some left.
fn first_of(from: u8, rest: u64) -> Visit
    requires { 1 ≤ rest }
    ensures { (quota : List ℕ) (n : ℕ) → from ≤ n → NextVisit quota n from rest result }
{
    let to = first_digit(rest);
    Visit {
        from,
        to,
        rest: one_less(rest, to),
    }
}

/// Returns the next visit of a round, by sender, then receiver, upward; `None` where the round is
/// over. `sender` is the sender visited last, 0 where the round begins, and `left` has its visits
/// still ahead, as `Visit::rest` has them. The rows of `quota` say how often each channel is
/// visited in the round. `sender` is at most `n`, and `n` at most 12. What is ahead is `ahead` of
/// specs/Lines.antt.
pub fn next_visit(sender: u8, left: u64, quota: &[u64; 12], n: u8) -> Option<Visit>
    requires { (sender ≤ n) × (n ≤ 12) }
    ensures { MatchOption result (ahead quota.now n sender left ≡ []) (NextVisit quota.now n sender left) }
{
    if left != 0 {
        return Some(first_of(sender, left));
    }
    // by number: it is the sender, and the rows before it are passed over
    for from in sender..n {
        let row = quota[from as usize];
        if row != 0 {
            return Some(first_of(from + 1, row));
        }
    }
    None
}
