//! Networks tried: whether one is at rest, and a list of deliveries in random order.
ghost use Rattle.std.specs.Prelude.{◌≡◌, ◌||◌, ◌+◌, ◌≤◌, ◌<◌};
ghost use Rattle.abt_record.specs.Abstract.{network_of};
ghost use Rattle.gate_random.specs.Lines.{rests_on, Waiting};
ghost use Rattle.gate_random.specs.Listing.{Goes, Listed};

use crate::draws::{next, pick};
use abt_packed::digit;
use abt_record::Network;
use abt_shape::places::{ends_of, is_line};
use support_rejection::Rejection;

// ---- lines

// The first channel that holds something, from this channel on and round.
#[tactic(auto, using(abt_shape::proofs::Numbering::ends))]
fn waiting_line(counts: &[u64; 12], first: usize) -> Option<usize>
    ensures { Waiting counts.now result }
{
    for k in 0..132 {
        let line = (first % 132 + k) % 132;
        let (from, to) = ends_of(line);
        if digit(counts[from as usize - 1], to) != 0 {
            return Some(line);
        }
    }
    None
}

/// Nothing waits on any channel. Equals `rests_on` of specs/Lines.antt.
pub fn at_rest(rail: Network) -> bool
    ensures { result ≡ rests_on rail.counts }
{
    waiting_line(&rail.counts, 0).is_none()
}

// ---- deliveries

/// A list of deliveries so far.
#[derive(Clone, Copy)]
pub struct List {
    /// The network that they left.
    pub rail: Network,
    /// The generator's state behind them.
    pub state: u64,
    /// How many were accepted.
    pub accepted: u64,
    /// How many were rejected.
    pub refused: u64,
    /// How many were rejected or accepted where they must not be.
    pub wrong: u64,
}

// Some channel that holds something; one time in eight any two numbers from 0 to 13.
#[tactic(auto, using(abt_shape::proofs::Numbering::ends))]
fn chosen(counts: &[u64; 12], state: u64) -> (u8, u8) {
    let second = next(state);
    if pick(second, 8) == 0 {
        (pick(state, 14) as u8, pick(next(second), 14) as u8)
    } else {
        match waiting_line(counts, pick(state, 132)) {
            Some(line) => ends_of(line),
            None => (1, 1),
        }
    }
}

// Whether a delivery may be rejected so, or accepted: where no other rejection must come, there may
// be no room.
#[tactic(auto, using(crate::proofs::Lines::line_low))]
fn refusal_right(rail: &Network, from: u8, to: u8, rejection: Option<Rejection>) -> bool {
    if !is_line(rail.count, from, to) {
        rejection == Some(Rejection::BadNumbers)
    } else if rail.unsolvable {
        rejection == Some(Rejection::VerdictStands)
    } else if 12 < from || 12 < to {
        false
    } else if digit(rail.counts[from as usize - 1], to) == 0 {
        rejection == Some(Rejection::EmptyChannel)
    } else {
        matches!(rejection, None | Some(Rejection::NoRoom))
    }
}

fn delivered(l: List) -> List
    requires { (l.accepted + l.refused < 18446744073709551615) × (l.wrong ≤ l.accepted + l.refused) }
    ensures { Goes l result }
{
    let (from, to) = chosen(&l.rail.counts, l.state);
    let out = abt::deliver(l.rail, from, to);
    let accepted = out.rejection.is_none();
    let wrong = !refusal_right(&l.rail, from, to, out.rejection);
    List {
        rail: out.network,
        state: next(next(next(l.state))),
        accepted: l.accepted + u64::from(accepted),
        refused: l.refused + u64::from(!accepted),
        wrong: l.wrong + u64::from(wrong),
    }
}

// No delivery is accepted any more.
fn over(rail: Network) -> bool
    ensures { result ≡ rail.unsolvable || rests_on rail.counts }
{
    rail.unsolvable || at_rest(rail)
}

/// Makes up to `most` deliveries in random order, until a verdict stands or nothing waits. What is
/// counted is what was done: `Listed` of specs/Listing.antt.
pub fn play_random(rail: Network, state: u64, most: usize) -> List
    ensures { Listed (network_of rail) most result }
{
    let mut l = List {
        rail,
        state,
        accepted: 0,
        refused: 0,
        wrong: 0,
    };
    for _ in 0..most {
        if over(l.rail) {
            break;
        }
        l = delivered(l);
    }
    l
}
