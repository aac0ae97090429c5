//! The calls on a network (rail): one delivery, and the run of many rounds. The work is done in
//! `abt_engine`; this crate states what each answer equals (specs/Answers.antt) and what it tells
//! of the problem after calls from a start (specs/Promised.antt). Start at `deliver`. The rules
//! are in docs/RULES.md, 'What a scanner does' and 'Rounds and the run'. `abt_calls` stands above
//! it and makes lists of calls.
#![tactic(auto)]

ghost use Rattle.std.specs.Prelude.{◌≡◌};
ghost use Rattle.model_network.specs.Delivery.{deliver as deliver_by};
ghost use Rattle.model_network.specs.Run.{run as run_by};
ghost use Rattle.abt_record.specs.Abstract.{network_of};
ghost use Rattle.abt_engine.specs.Answers.{ending_of};
ghost use Rattle.abt_engine.specs.Refused.{rejected_number};
ghost use Rattle.abt.specs.Answers.{DeliversAs, standing, RunsAs};
ghost use Rattle.abt.specs.Promised.{Promised, Stands};

use abt_engine::{Answer, Task, work};
use abt_record::Network;
use support_rejection::Rejection;

/// Delivers the head of the channel from agent `from` to agent `to`. The receiver takes the message
/// in, and what it sends goes to the ends of its channels.
///
/// Takes any network and any two numbers. These tests come in this order, and the first that fails
/// rejects the call:
/// - `BadShape` (5): the network is not in shape.
/// - `BadNumbers` (6): a number is not 1 to n, or the two are equal.
/// - `VerdictStands` (7): the verdict `none` stands.
/// - `EmptyChannel` (8): nothing waits on the channel.
/// - `NoRoom` (10): a channel would come to hold more than eight messages.
///
/// A rejected call hands back the very network given. `rounds` is 0. `ending` says how the network
/// handed back stands: `Unsolvable`, `Plan` or `Open`, or `Broken` after a 5.
///
/// Equals `deliver` of model_network/specs/Delivery.antt. Where a start and any calls led to `r`,
/// the network handed back tells of the problem: with nothing waiting and no verdict its values
/// obey all bans, and under a verdict no values do.
#[tactic(auto, unfolding(abt_engine::specs::Tasks::allowed_of))]
pub fn deliver(r: Network, from: u8, to: u8) -> Answer
    ensures delivers_as { DeliversAs r (deliver_by (network_of r) from to) (rejected_number result.rejection) result.network }
    ensures rounds_value { (result.rounds ≡ 0) × (ending_of result.ending ≡ standing (deliver_by (network_of r) from to)) }
    ensures promised { Promised r result }
    ensures stands { Stands r result.network }
{
    let mut answer = work(r, Task::Deliver { from, to });
    if answer.rejection.is_some() {
        answer.network = r;
    }
    answer
}

/// Makes rounds of deliveries until the verdict falls, nothing waits, a whole round delivers
/// nothing, or the allowed rounds are used. `allowed` is "0 to 1,000,000, and more is taken as
/// 1,000,000".
///
/// Takes any network. The only rejection is `BadShape` (5): the answer then has the very network
/// given, 0 rounds and the ending `Broken`. `rounds` counts the full rounds only, those that
/// delivered all that waited when they began.
///
/// Equals `run` of model_network/specs/Run.antt. Where a start and any calls led to `r`, `Plan`
/// means that the values obey all bans, `Unsolvable` that no values do, and the full rounds of all
/// runs together are at most `most_rounds` of theorems_network/specs/Claims.antt.
#[tactic(auto, unfolding(abt_engine::specs::Tasks::allowed_of))]
pub fn run(r: Network, allowed: u64) -> Answer
    ensures runs_as { RunsAs r (run_by allowed (network_of r)) result }
    ensures promised { Promised r result }
{
    let task = Task::Run {
        allowed: allowed.min(1000000),
    };
    work(r, task)
}

/// Delivers as `deliver` does, on the network where it stands. Returns the rejection, if there is
/// one; the network is then left as it was.
pub fn deliver_in_place(r: &mut Network, from: u8, to: u8) -> Option<Rejection>
    ensures delivers_as { DeliversAs r.old (deliver_by (network_of r.old) from to) (rejected_number result) r.new }
    ensures stands { Stands r.old r.new }
{
    let answer = deliver(*r, from, to);
    *r = answer.network;
    answer.rejection
}
