//! The channels of a network, read without the writer that is tried: the two share the numbering of
//! the channels, which is proved.
ghost use Rattle.std.specs.Prelude.{◌<◌};

use abt_agent::Message;
use abt_packed::digit;
use abt_record::Network;
use abt_shape::places::ends_of;

/// A channel's messages.
#[derive(Clone, Copy)]
pub struct Line {
    /// How many there are.
    pub count: u8,
    /// The number of the first of them, messages being numbered from 1 over all channels.
    pub first: u16,
}

// How many messages channel c holds.
#[tactic(auto, using(abt_shape::proofs::Numbering::ends))]
fn held(r: &Network, c: usize) -> u8
    requires { c < 132 }
    ensures { result < 16 }
{
    let (from, to) = ends_of(c);
    digit(r.counts[from as usize - 1], to)
}

/// All channels, messages being numbered from 1.
pub fn lines_of(r: &Network) -> [Line; 132] {
    let mut lines = [Line { count: 0, first: 1 }; 132];
    let mut first: u16 = 1;
    for (c, line) in lines.iter_mut().enumerate() {
        *line = Line {
            count: held(r, c),
            first,
        };
        first = first.saturating_add(u16::from(line.count));
    }
    lines
}

/// The message that stands so far behind the head of channel c, 0 to 131.
#[tactic(auto, using(abt_shape::proofs::Numbering::ends))]
pub fn message_at(r: &Network, c: usize, ahead: u8) -> Message
    requires { c < 132 }
{
    let (from, to) = ends_of(c);
    let head = digit(r.heads[from as usize - 1], to);
    r.places[8 * c + usize::from(head % 8 + ahead % 8) % 8].message
}
