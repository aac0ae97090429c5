//! How long each channel has waited, though it could be delivered.
ghost use Rattle.std.specs.Prelude.{◌<◌};

use crate::judging::{among, can, line_of};
use abt_dispatch::Line;
use abt_record::Network;

/// How long channels have waited.
#[derive(Clone, Copy)]
pub struct Watch {
    /// For each channel, the picks in a row before which it could be delivered, and which did not
    /// serve it.
    pub waited: [u64; 132],
    /// The greatest of them so far.
    pub longest: u64,
    /// Whether one came to the limit.
    pub late: bool,
}

/// No channel has waited.
pub fn none_waited() -> Watch {
    Watch {
        waited: [0; 132],
        longest: 0,
        late: false,
    }
}

// "within 2 × n × (n - 1) picks", for the one to six agents of a random sheet
fn limit(n: u8) -> u64 {
    match n {
        1 => 0,
        2 => 4,
        3 => 12,
        4 => 24,
        5 => 40,
        _ => 60,
    }
}

// Counts one channel, on the network before a pick that served another one or this one.
fn with_line(w: Watch, r: Network, number: usize, served: Option<Line>) -> Watch
    requires { number < 132 }
{
    let line = line_of(number);
    let mut o = w;
    if served == Some(line) || !can(r, line) {
        o.waited[number] = 0;
        return o;
    }
    let picks = w.waited[number].saturating_add(1);
    o.waited[number] = picks;
    o.longest = o.longest.max(picks);
    o.late = o.late || limit(r.count) <= picks;
    o
}

/// Counts all channels, on the network before a pick that served this channel.
pub fn with_pick(w: Watch, r: Network, served: Option<Line>) -> Watch {
    let mut o = w;
    for number in 0..132 {
        if among(r.count, line_of(number)) {
            o = with_line(o, r, number, served);
        }
    }
    o
}
