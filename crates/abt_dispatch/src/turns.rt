//! Going round the channels (lines): the first in turn that can be delivered.
ghost use Rattle.std.specs.Prelude.{◌≡◌, ◌≢◌, ◌≤◌, IfSome, false};
ghost use Rattle.model_dispatch.specs.Dispatch.{up_to, turn, first_of, deliverable};
ghost use Rattle.abt_record.specs.Abstract.{network_of};
ghost use Rattle.abt_dispatch.specs.Abstract.{line_of};
ghost use Rattle.abt_dispatch.specs.Walking.{ahead_of, last_line, Stands, NextOf, SearchedAs, found_in};

use crate::Line;
use abt_packed::digit;
use abt_record::Network;
use abt_shape::places::is_line;

impl Line {
    // The next pair of ends, by sender, then receiver; none after the last. The two may be one
    // agent.
    fn next(self, n: u8) -> Option<Line>
        requires { Stands n self × (n ≤ 12) }
        ensures { NextOf n self result }
    {
        if self.to < n {
            Some(Line {
                to: self.to + 1,
                ..self
            })
        } else if self.from < n {
            Some(Line {
                from: self.from + 1,
                to: 1,
            })
        } else {
            None
        }
    }
}

// Whether something waits on this channel.
fn waits(r: &Network, line: Line) -> bool
    requires { Stands r.now.count line × (r.now.count ≤ 12) }
    ensures { result ≡ false → deliverable (network_of r.now) (line_of line) ≡ false }
{
    digit(r.counts[line.from as usize - 1], line.to) != 0
}

// The first channel that can be delivered, from `first` on, up to and with `last` where there is
// one. The network after its delivery is put in `left`, beside the answer: in an `Option` it would
// be cleared wherever nothing is found.
fn first_from(
    r: &Network,
    first: Option<Line>,
    last: Option<Line>,
    left: &mut Network,
) -> Option<Line>
    requires stands { IfSome first (λ l. Stands r.now.count l) }
    requires apart { IfSome last (λ l. l.from ≢ l.to) }
    requires count_bound { r.now.count ≤ 12 }
    ensures { SearchedAs r.now (first_of (network_of r.now) (up_to (last_line last) (ahead_of r.now.count first))) (found_in result left.new) }
{
    let mut next = first;
    while let Some(line) = next {
        if waits(r, line) {
            let answer = abt::deliver(*r, line.from, line.to);
            if answer.rejection.is_none() {
                *left = answer.network;
                return Some(line);
            }
        }
        if last == Some(line) {
            return None;
        }
        next = line.next(r.count);
    }
    None
}

/// Delivers on the first channel in turn that can be delivered, and returns it, with the network
/// after that in `left`; `None` where there is none. In turn come the channels after the place, then
/// those up to it, the place itself last; all of them, from 1 to 2 on, where the place is no
/// channel. The network has 1 to 12 agents.
pub fn next_in_turn(r: &Network, place: Line, left: &mut Network) -> Option<Line>
    requires { (1 ≤ r.now.count) × (r.now.count ≤ 12) }
    ensures { SearchedAs r.now (first_of (network_of r.now) (turn (network_of r.now) (line_of place))) (found_in result left.new) }
{
    let start = Some(Line { from: 1, to: 1 });
    if is_line(r.count, place.from, place.to) {
        let behind = first_from(r, place.next(r.count), None, left);
        if behind.is_some() {
            behind
        } else {
            first_from(r, start, Some(place), left)
        }
    } else {
        first_from(r, start, None, left)
    }
}
