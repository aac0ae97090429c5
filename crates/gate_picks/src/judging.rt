//! What a pick must do, worked out a second time by other means, but for the numbering of the
//! channels, which is proved: they have numbers 0 to 131, and the round goes on from the number
//! behind the place's, modulo 132.
ghost use Rattle.std.specs.Prelude.{◌≤◌, ◌<◌, IfSome};

use abt_dispatch::{Dispatcher, Line, Picked};
use abt_record::Network;
use abt_shape::places::{channel_at, ends_of, is_line};
use support_rejection::Rejection;

/// The channel that has this number, 0 to 131, by sender, then receiver.
pub fn line_of(number: usize) -> Line
    requires { number < 132 }
{
    let (from, to) = ends_of(number);
    Line { from, to }
}

/// Both ends are of n agents.
pub fn among(n: u8, line: Line) -> bool {
    line.from <= n && line.to <= n
}

// The number behind that of a channel of n agents; none where there is no such channel.
#[tactic(auto, using(crate::proofs::Lines::channel), unfolding(model_base::specs::Finite::within))]
fn behind(n: u8, place: Line) -> Option<usize>
    ensures { IfSome result (λ k. k ≤ 132) }
{
    if n <= 12 && is_line(n, place.from, place.to) {
        Some(channel_at(place.from, place.to) + 1)
    } else {
        None
    }
}

/// A delivery there would be accepted.
pub fn can(r: Network, line: Line) -> bool {
    abt::deliver(r, line.from, line.to).rejection.is_none()
}

// The first channel that can be delivered, from the one behind the place on; from the first one,
// where the place is no channel.
fn in_turn(r: Network, place: Line) -> Option<Line> {
    let first = behind(r.count, place).unwrap_or(0);
    for k in 0..132 {
        let line = line_of((first + k) % 132);
        if among(r.count, line) && can(r, line) {
            return Some(line);
        }
    }
    None
}

// The rejection where no channel can be delivered. Something waits where a row of counts is not
// zero: a network that a start leads to has no digits but its channels'.
fn rejection(r: Network) -> Rejection {
    if r.unsolvable {
        Rejection::VerdictStands
    } else if r.counts.iter().any(|row| *row != 0) {
        Rejection::NoRoom
    } else {
        Rejection::EmptyChannel
    }
}

// ---- a pick

/// The dispatcher that a pick was made on, its wish, and what it came to.
#[derive(Clone, Copy)]
pub struct Pick {
    pub before: Dispatcher,
    pub wish: Line,
    pub picked: Picked,
}

impl Pick {
    /// Makes a pick.
    pub fn made(before: Dispatcher, wish: Line) -> Pick {
        Pick {
            before,
            wish,
            picked: abt_dispatch::pick(before, wish),
        }
    }

    // It takes the wish: it is odd, and the wish can be delivered.
    fn meets_wish(&self) -> bool {
        self.before.picks != u64::MAX
            && self.before.picks % 2 == 0
            && can(self.before.network, self.wish)
    }

    /// The state is the one given, and no channel was served.
    pub fn is_unchanged(&self) -> bool {
        self.picked.answer.is_err() && self.picked.state == self.before
    }

    // It served this channel, and this is the place now.
    fn serves(&self, line: Line, place: Line) -> bool {
        let state = Dispatcher {
            network: abt::deliver(self.before.network, line.from, line.to).network,
            picks: self.before.picks.saturating_add(1),
            place,
        };
        self.picked
            == Picked {
                answer: Ok(line),
                state,
            }
    }

    /// It did what it must: it served the wish or the channel in turn, or was rejected for the
    /// right reason and changed nothing.
    pub fn is_right(&self) -> bool {
        let Dispatcher { network, place, .. } = self.before;
        if self.meets_wish() {
            return self.serves(self.wish, place);
        }
        match in_turn(network, place) {
            Some(line) => self.serves(line, line),
            None => self.picked.answer == Err(rejection(network)) && self.is_unchanged(),
        }
    }
}
