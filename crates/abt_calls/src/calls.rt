//! The calls on a network, and what each comes to.
use abt_dispatch::{Dispatcher, Line};
use abt_engine::Ending;
use support_rejection::Rejection;

/// A call on a network.
#[derive(Clone, Copy, Debug, PartialEq, Eq)]
pub enum Call {
    /// A delivery of the head of a channel. Any two numbers may stand in the line.
    Deliver(Line),
    /// A run, with the number of rounds that it may use. More than 1,000,000 is taken as 1,000,000.
    Run(u64),
    /// One pick of the dispatcher, with the channel that the host wishes.
    Pick(Line),
}

/// What a call came to.
#[derive(Clone, Copy, Debug, PartialEq, Eq)]
pub enum Outcome {
    /// The delivery was accepted.
    Delivered,
    /// The run's ending, and the full rounds that it made, 0 to 1,000,000.
    Ran { ending: Ending, rounds: u64 },
    /// The pick served this channel.
    Served(Line),
    /// The call was rejected: a delivery with 5, 6, 7, 8 or 10, a run with 5, a pick with 5, 7, 8
    /// or 10.
    Refused(Rejection),
}

/// What one call hands back.
#[derive(Clone, Copy, Debug, PartialEq, Eq)]
pub struct Called {
    /// The dispatcher that the call leaves. A rejected call leaves the very dispatcher that it was
    /// given.
    pub dispatcher: Dispatcher,
    /// What the call came to.
    pub outcome: Outcome,
}

/// What a list of calls hands back.
#[derive(Clone, Copy, Debug, PartialEq, Eq)]
pub struct Played {
    /// The dispatcher that the last call leaves.
    pub dispatcher: Dispatcher,
    /// What the last call came to. `None` where there are no calls.
    pub last: Option<Outcome>,
}
