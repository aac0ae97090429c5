//! The dispatcher above a network (rail): it makes one delivery a pick, in turn round the channels
//! (lines) or on the one that the host wishes. It stands on `abt`, whose deliveries it makes. Start
//! at `pick`; the module `turns` goes round the channels. The rules are in docs/RULES.md, 'The
//! dispatcher'.
#![tactic(auto)]

ghost use Rattle.std.specs.Prelude.{◌≡◌};
ghost use Rattle.support_rejection.specs.Rejections.{rejection_number};
ghost use Rattle.model_agent.specs.Traffic.{raised};
ghost use Rattle.model_dispatch.specs.Dispatch.{turn, first_of, is_odd, evenly, pick as pick_by, dispatcher};
ghost use Rattle.abt_record.specs.Abstract.{network_of};
ghost use Rattle.abt_engine.specs.Refused.{rejected_number};
ghost use Rattle.abt_dispatch.specs.Abstract.{line_of, dispatcher_of, tested_by, nothing_by, PicksAs};

mod turns;

use abt_engine::Ending;
use abt_record::Network;
use support_rejection::Rejection;
use turns::next_in_turn;

/// A channel (line), by its ends. Any two numbers may stand here, as a host may wish or store them.
#[derive(Clone, Copy, Debug, PartialEq, Eq)]
pub struct Line {
    /// The sender.
    pub from: u8,
    /// The receiver.
    pub to: u8,
}

/// No channel: 0 and 0.
pub const NO_LINE: Line = Line { from: 0, to: 0 };

/// A dispatcher and its network. A host may hand over any, a forged one too.
#[derive(Clone, Copy, Debug, PartialEq, Eq)]
pub struct Dispatcher {
    /// The network.
    pub network: Network,
    /// The count of picks that made a delivery. At 2^64 - 1 it stays.
    pub picks: u64,
    /// The channel that an even pick served last; the next even pick goes on behind it. Numbers
    /// that are no channel of the network mean that it begins with 1 to 2.
    pub place: Line,
}

/// What a pick hands back.
#[derive(Clone, Copy, Debug, PartialEq, Eq)]
pub struct Picked {
    /// The channel served, or why the pick was rejected.
    pub answer: Result<Line, Rejection>,
    /// The dispatcher that the pick leaves.
    pub state: Dispatcher,
}

/// Returns a new dispatcher above the network: no picks made, and no place. Equals `dispatcher` of
/// model_dispatch/specs/Dispatch.antt.
#[tactic(auto, unfolding(crate::specs::Abstract::dispatcher_of, model_dispatch::specs::Dispatch::dispatcher))]
pub fn begin(network: Network) -> Dispatcher
    ensures { dispatcher_of result ≡ dispatcher (network_of network) }
{
    Dispatcher {
        network,
        picks: 0,
        place: NO_LINE,
    }
}

// The pick about to be made is odd, and takes the wish. With the count at its top every pick is
// even.
#[tactic(auto, unfolding(model_dispatch::specs::Dispatch::is_odd, model_agent::specs::Traffic::top))]
fn is_odd(picks: u64) -> bool
    ensures { result ≡ is_odd picks }
{
    picks < u64::MAX && picks % 2 == 0
}

// The count with one pick more. At the top it stays.
#[tactic(auto, unfolding(model_agent::specs::Traffic::raised, model_agent::specs::Traffic::top))]
fn one_more(picks: u64) -> u64
    ensures { result ≡ raised picks 1 }
{
    picks.saturating_add(1)
}

// The first of 5 and 7 that a pick meets, if it meets one.
#[tactic(auto, unfolding(crate::specs::Abstract::tested_by, model_network::specs::Delivery::rejection_number, abt_record::specs::Abstract::network_of))]
fn first_rejection(r: &Network) -> Option<Rejection>
    ensures { rejected_number result ≡ tested_by (network_of r.now) }
{
    if !r.is_in_shape() {
        Some(Rejection::BadShape)
    } else if r.unsolvable {
        Some(Rejection::VerdictStands)
    } else {
        None
    }
}

// 8 where nothing waits, 10 where something does. A run that may use no round tells which.
fn none_deliverable(r: &Network) -> Rejection
    requires { tested_by (network_of r.now) ≡ 0 }
    ensures { rejection_number result ≡ nothing_by (network_of r.now) }
{
    match abt::run(*r, 0).ending {
        Ending::Plan => Rejection::EmptyChannel,
        _ => Rejection::NoRoom,
    }
}

// An even pick, past 5 and 7: the first channel in turn that can be delivered is served, and is the
// place from then on.
fn pick_in_turn(d: &Dispatcher) -> Picked
    requires { tested_by (network_of d.now.network) ≡ 0 }
    ensures { PicksAs d.now (evenly (dispatcher_of d.now) (first_of (network_of d.now.network) (turn (network_of d.now.network) (line_of d.now.place)))) result }
{
    let mut network = d.network;
    match next_in_turn(&d.network, d.place, &mut network) {
        Some(line) => Picked {
            answer: Ok(line),
            state: Dispatcher {
                network,
                picks: one_more(d.picks),
                place: line,
            },
        },
        None => Picked {
            answer: Err(none_deliverable(&d.network)),
            state: *d,
        },
    }
}

/// Makes one pick. An odd pick serves the wish, if it can be delivered, and leaves the place. An
/// even pick, or an odd one whose wish cannot be delivered, serves the first channel in turn that
/// can, and the place moves there. The first pick of all is odd; with the count at 2^64 - 1 every
/// pick is even. Takes any dispatcher and any wish.
///
/// Rejects with `BadShape` (5), then with `VerdictStands` (7). Where no channel can be delivered,
/// it rejects with `EmptyChannel` (8) if nothing waits, and with `NoRoom` (10) otherwise. A
/// rejected pick hands back the very dispatcher given. Equals `pick` of
/// model_dispatch/specs/Dispatch.antt.
pub fn pick(d: Dispatcher, wish: Line) -> Picked
    ensures { PicksAs d (pick_by (dispatcher_of d) (line_of wish)) result }
{
    if let Some(rejection) = first_rejection(&d.network) {
        return Picked {
            answer: Err(rejection),
            state: d,
        };
    }
    if is_odd(d.picks) {
        let answer = abt::deliver(d.network, wish.from, wish.to);
        if answer.rejection.is_none() {
            return Picked {
                answer: Ok(wish),
                state: Dispatcher {
                    network: answer.network,
                    picks: one_more(d.picks),
                    ..d
                },
            };
        }
    }
    pick_in_turn(&d)
}
