//! Deliveries and runs worked out a second time: the room that a delivery needs by what it sends
//! where there is room for all, and a run delivery by delivery.
ghost use Rattle.std.specs.Prelude.{◌≤◌, ◌<◌};

use abt_engine::{Answer, Ending};
use abt_packed::digit;
use abt_record::Network;
use abt_shape::places::{ends_of, place_at};
use gate_random::rails::at_rest;
use support_rejection::Rejection;

// ---- a delivery

// How many messages a delivery to `to` sends on each of its channels, a digit for each receiver. It
// is made where all these channels are empty: no step sends more than three messages to one agent,
// so there is room.
fn sent(rail: &Network, from: u8, to: u8) -> u64
    requires { (1 ≤ to) × (to ≤ 12) }
{
    let mut o = *rail;
    o.counts[to as usize - 1] = 0;
    abt::deliver(o, from, to).network.counts[to as usize - 1]
}

// No channel comes to hold more than eight.
fn has_room(held: u64, sent: u64) -> bool {
    for k in 1..=12 {
        if 8 < digit(held, k) + digit(sent, k) {
            return false;
        }
    }
    true
}

// What a delivery on a network in shape must be rejected with.
fn refusal_due(rail: &Network, from: u8, to: u8) -> Option<Rejection> {
    let n = rail.count.min(12);
    if from == 0 || n < from || to == 0 || n < to || from == to {
        Some(Rejection::BadNumbers)
    } else if rail.unsolvable {
        Some(Rejection::VerdictStands)
    } else if digit(rail.counts[from as usize - 1], to) == 0 {
        Some(Rejection::EmptyChannel)
    } else if has_room(rail.counts[to as usize - 1], sent(rail, from, to)) {
        None
    } else {
        Some(Rejection::NoRoom)
    }
}

// An accepted delivery puts what it sends behind what the receiver's channels held.
fn lengths_right(rail: &Network, from: u8, to: u8, left: &Network) -> bool
    requires { (1 ≤ to) × (to ≤ 12) }
{
    let row = to as usize - 1;
    left.counts[row].checked_sub(rail.counts[row]) == Some(sent(rail, from, to))
}

// The same delivery, made in place, leaves the same and is rejected alike.
fn in_place_right(rail: &Network, from: u8, to: u8, answer: &Answer) -> bool {
    let mut standing = *rail;
    let rejection = abt::deliver_in_place(&mut standing, from, to);
    rejection == answer.rejection && standing == answer.network
}

/// The delivery was answered as it must be: rejected for the reason due, with the network as given;
/// or accepted, with what it sends behind what was there. Made in place it does the same.
pub fn delivery_right(rail: &Network, from: u8, to: u8, answer: &Answer) -> bool {
    let left = if answer.rejection.is_some() {
        answer.network == *rail
    } else {
        0 < to && to <= 12 && lengths_right(rail, from, to, &answer.network)
    };
    left && answer.rejection == refusal_due(rail, from, to)
        && in_place_right(rail, from, to, answer)
}

// ---- a run

// A round on its way: what it has delivered, and whether something that waited when it began was
// not delivered.
#[derive(Clone, Copy)]
struct Round {
    rail: Network,
    delivered: bool,
    missed: bool,
}

impl Round {
    // Visits one channel and delivers as many messages as it held when the round began: up to the
    // verdict, or to one that finds no room.
    fn visit(&mut self, from: u8, to: u8, messages: u8) {
        for _ in 0..messages {
            let answer = abt::deliver(self.rail, from, to);
            if answer.rejection.is_some() {
                self.missed = true;
                return;
            }
            self.rail = answer.network;
            self.delivered = true;
        }
    }
}

// A whole round: the channels by sender, then receiver.
#[tactic(auto, using(abt_shape::proofs::Numbering::ends))]
fn whole_round(rail: Network) -> Round {
    let mut o = Round {
        rail,
        delivered: false,
        missed: false,
    };
    for line in 0..132 {
        let (from, to) = ends_of(line);
        o.visit(from, to, digit(rail.counts[from as usize - 1], to));
    }
    o
}

// What a run comes to.
#[derive(Clone, Copy)]
struct Ran {
    rail: Network,
    rounds: u64,
    ending: Ending,
}

impl Ran {
    fn ended(self, ending: Ending) -> Ran {
        Ran { ending, ..self }
    }
}

// The run, a round at a time: "`none` for the verdict, `plan` for nothing waiting, `jammed` where a
// whole round delivered nothing while something waits, else `open`".
fn run_by_rounds(rail: Network, allowed: u64) -> Ran {
    let mut o = Ran {
        rail,
        rounds: 0,
        ending: Ending::Open,
    };
    for _ in 0..allowed {
        if o.rail.unsolvable || at_rest(o.rail) {
            break;
        }
        let r = whole_round(o.rail);
        o.rail = r.rail;
        o.rounds = o.rounds.saturating_add(u64::from(!r.missed));
        if !r.delivered {
            return o.ended(Ending::Jammed);
        }
    }
    if o.rail.unsolvable {
        o.ended(Ending::Unsolvable)
    } else if at_rest(o.rail) {
        o.ended(Ending::Plan)
    } else {
        o
    }
}

// The same messages wait on a channel, whose head and count are the same.
#[tactic(auto, using(abt_shape::proofs::Numbering::ends))]
fn same_line(r: &Network, other: &Network, line: usize) -> bool
    requires { line < 132 }
{
    let (from, to) = ends_of(line);
    let row = from as usize - 1;
    let head = digit(r.heads[row], to);
    for k in 0..digit(r.counts[row], to) {
        let at = place_at(line, head, k);
        if r.places[at] != other.places[at] {
            return false;
        }
    }
    true
}

// The two networks are the same: "What an unused place holds is no part of a rail."
fn same_rail(r: &Network, other: &Network) -> bool {
    let laid = Network {
        places: other.places,
        ..*r
    };
    for line in 0..132 {
        if !same_line(r, other, line) {
            return false;
        }
    }
    laid == *other
}

/// The run was answered as it must be: not rejected, with the word, the full rounds and the network
/// of the same run made delivery by delivery.
pub fn run_right(rail: Network, allowed: u64, answer: &Answer) -> bool {
    let due = run_by_rounds(rail, allowed);
    answer.rejection.is_none()
        && answer.ending == due.ending
        && answer.rounds == due.rounds
        && same_rail(&answer.network, &due.rail)
}
