//! The network (rail) as a host holds it. A value of [`Network`] is always in shape: its fields are
//! private, and the ghost field `shaped` is proved wherever one is made or changed. So no method
//! rejects a call with 5, a rejected call leaves the network as it was, and no call has a premise.
//! What the theorems say of a network after calls from a start stands in the contracts
//! (specs/Histories.antt). It stands on `abt_start`, `abt` and `abt_image_mover`, whose functions
//! by value do the work. Start at `Network::start`, then `Network::run`; the module `picks` has the
//! dispatcher. The rules are in docs/RULES.md, 'What a scanner does' and 'Rounds and the run'.
#![tactic(auto)]

ghost use Rattle.std.specs.Prelude.{◌≡◌, ◌≢◌, ◌≤◌, true, take, IfOk, IfErr, IsOkAnd, OnOk, OnErr};
ghost use Rattle.model_network.specs.Network.{Network as Network', start_sheet};
ghost use Rattle.model_network.specs.Shape.{in_shape};
ghost use Rattle.model_network.specs.Delivery.{answer_number, deliver as deliver_by, ask_value};
ghost use Rattle.model_network.specs.Run.{Broken, run as run_by};
ghost use Rattle.theorems_network.specs.Calls.{Deliver, Run};
ghost use Rattle.model_image.specs.Plain.{Plain};
ghost use Rattle.model_image_forms.specs.Reading.{load as load_by};
ghost use Rattle.model_image_forms.specs.Writing.{store as store_by};
ghost use Rattle.support_buffer.specs.Abstract.{written_of, InBuffer};
ghost use Rattle.abt_record.specs.Abstract.{network_of as network_in};
ghost use Rattle.abt_record.specs.Asked.{asked_number, asked_value};
ghost use Rattle.abt_engine.specs.Answers.{ending_of};
ghost use Rattle.abt_engine.specs.Refused.{rejected_number};
ghost use Rattle.abt_start.specs.Started.{StartsAs};
ghost use Rattle.abt_image_reader.specs.Loaded.{loaded_of};
ghost use Rattle.abt_image_mover.specs.Form.{form_named};
ghost use Rattle.abt_network.specs.Numbers.{answered_number};
ghost use Rattle.abt_network.specs.Histories.{Begun, GoesOn, RunTells, Stands};
ghost use Rattle.abt_network.specs.Images.{ReadsAs};

mod picks;

use abt_engine::Ending;
use abt_image_mover::{Form, store_as};
pub use picks::Dispatch;
use support_rejection::Rejection;

/// A network (rail) in shape: the problem, the rule, the agents and the channels. It comes from
/// `start` or `load`, and changes by `restart`, `deliver`, `run` and `pick` alone. `network_of` of
/// specs/Abstract.antt says which network of the definitions it is.
#[derive(Drop)]
pub struct Network {
    state: abt_record::Network,
    pub ghost shaped: { in_shape (network_in state) ≡ true },
}

/// What a run comes to.
#[derive(Clone, Copy, Debug, PartialEq, Eq)]
pub struct Ran {
    /// The full rounds made, 0 to 1,000,000: those that delivered all that waited when they began.
    pub rounds: u64,
    /// How the network stands. Never `Broken`.
    pub ending: Ending,
}

// Done, unless there is a rejection.
fn done_unless(rejection: Option<Rejection>) -> Result<(), Rejection>
    ensures { answered_number result ≡ rejected_number rejection }
{
    match rejection {
        None => Ok(()),
        Some(rejection) => Err(rejection),
    }
}

impl Network {
    ghost use Rattle.abt_network.specs.Abstract.{network_of, record_of};

    // ---- the start

    /// Starts a network: every agent of the sheet's problem begins, and what it sends waits on its
    /// channels. `rule` is 1, or 2, the quiet one; `sheet` may be any bytes.
    ///
    /// Rejects with `BadRule` (11) where the rule is another number, before it looks at the sheet;
    /// then with the sheet's first fault, `BadLength` (1), `BadHeader` (2), `BadRecord` (3) or
    /// `Cycle` (4). Equals `start_sheet` of model_network/specs/Network.antt.
    pub fn start(rule: u8, sheet: &[u8]) -> Result<Network, Rejection>
        ensures starts { StartsAs (start_sheet rule sheet.now) (record_of result) }
        ensures never_broken { IfErr result (λ e. e ≢ Rejection.BadShape) }
        ensures reached { IfOk result (λ n. Begun rule sheet.now (network_of n)) }
    {
        match abt_start::start(rule, sheet) {
            Ok(state) => Ok(Network { state }),
            Err(rejection) => Err(rejection),
        }
    }

    /// Starts anew, in this network's place, as `start` does. A new list of calls begins. Where
    /// `start` rejects, so does this, and the network is as before.
    pub fn restart(&mut self, rule: u8, sheet: &[u8]) -> Result<(), Rejection>
        ensures number { answered_number result ≡ (start_sheet rule sheet.now).number }
        ensures started { OnOk result (network_of self.new ≡ (start_sheet rule sheet.now).network) }
        ensures reached { OnOk result (Begun rule sheet.now (network_of self.new)) }
        ensures same { OnErr result (network_of self.new ≡ network_of self.old) }
        ensures never_broken { IfErr result (λ e. e ≢ Rejection.BadShape) }
    {
        match Network::start(rule, sheet) {
            Ok(begun) => {
                *self = begun;
                Ok(())
            }
            Err(rejection) => Err(rejection),
        }
    }

    // ---- calls

    /// Delivers the head of the channel from agent `from` to agent `to`. The receiver takes the
    /// message in, and what it sends goes to the ends of its channels. Any two numbers may be
    /// given.
    ///
    /// These tests come in this order, and the first that fails rejects the call; the network is
    /// then as before:
    /// - `BadNumbers` (6): a number is not 1 to n, or the two are equal.
    /// - `VerdictStands` (7): the verdict `none` stands.
    /// - `EmptyChannel` (8): nothing waits on the channel.
    /// - `NoRoom` (10): a channel would come to hold more than eight messages.
    ///
    /// Equals `deliver` of model_network/specs/Delivery.antt. Where a start and any calls led to
    /// the network, the one that is left tells of the problem: with nothing waiting and no verdict
    /// its values obey all bans, and under a verdict no values do.
    pub fn deliver(&mut self, from: u8, to: u8) -> Result<(), Rejection>
        ensures network { network_of self.new ≡ (deliver_by (network_of self.old) from to).network }
        ensures number { answered_number result ≡ answer_number (deliver_by (network_of self.old) from to).answer }
        ensures same { OnErr result (network_of self.new ≡ network_of self.old) }
        ensures never_broken { IfErr result (λ e. e ≢ Rejection.BadShape) }
        ensures reached { GoesOn (Deliver from to) (network_of self.old) (network_of self.new) }
        ensures stands { Stands (network_of self.old) (network_of self.new) }
    {
        let delivered = abt::deliver(self.state, from, to);
        self.state = delivered.network;
        done_unless(delivered.rejection)
    }

    /// Makes rounds of deliveries until the verdict falls, nothing waits, a whole round delivers
    /// nothing, or the allowed rounds are used. `rounds` is "0 to 1,000,000, and more is taken as
    /// 1,000,000". Never rejected.
    ///
    /// Equals `run` of model_network/specs/Run.antt. Where a start and any calls led to the
    /// network, `Plan` means that the values obey all bans, `Unsolvable` that no values do, and the
    /// full rounds of all runs together are at most `most_rounds` of
    /// theorems_network/specs/Claims.antt.
    pub fn run(&mut self, rounds: u64) -> Ran
        ensures network { network_of self.new ≡ (run_by rounds (network_of self.old)).network }
        ensures made { result.rounds ≡ (run_by rounds (network_of self.old)).made }
        ensures ending { ending_of result.ending ≡ (run_by rounds (network_of self.old)).ending }
        ensures never_broken { ending_of result.ending ≢ Broken }
        ensures reached { GoesOn (Run rounds) (network_of self.old) (network_of self.new) }
        ensures tells { RunTells (network_of self.old) (ending_of result.ending) result.rounds (network_of self.new) }
    {
        let ran = abt::run(self.state, rounds);
        self.state = ran.network;
        Ran {
            rounds: ran.rounds,
            ending: ran.ending,
        }
    }

    // ---- questions

    /// Returns the value of an agent, 1 to 8. It is 0 where the verdict left the agent without one.
    ///
    /// Rejects with `BadNumbers` (6) where `agent` is not 1 to n. Equals `ask_value` of
    /// model_network/specs/Delivery.antt.
    pub fn value(&self, agent: u8) -> Result<u8, Rejection>
        ensures answers { let asked = ask_value (network_of self.now) agent in (asked_number result ≡ answer_number asked.answer) × (asked_value result ≡ asked.value) }
        ensures never_broken { IfErr result (λ e. e ≢ Rejection.BadShape) }
    {
        abt_record::value(self.state, agent)
    }

    /// Returns whether the verdict `none` stands. Where a start and any calls led to the network,
    /// it stands only if no values obey all bans; and where it does not stand and nothing waits,
    /// the values of the network do.
    pub fn is_unsolvable(&self) -> bool
        ensures verdict { result ≡ (network_of self.now).unsolvable }
        ensures stands { Stands (network_of self.now) (network_of self.now) }
    {
        self.state.unsolvable
    }

    /// Returns the number of agents, n: 1 to 12.
    pub fn agents(&self) -> u8
        ensures count { result ≡ (network_of self.now).problem.count }
        ensures in_range { (1 ≤ result) × (result ≤ 12) }
    {
        self.state.count
    }

    // ---- images

    /// Writes the image of the network in the form given, and returns its length in bytes, 19,744
    /// at most. Bytes past it stay. What is written reads back as the network.
    ///
    /// Rejects with `ShortBuffer` (12) where the buffer is shorter than the image, and leaves it
    /// untouched. Equals `store` of model_image_forms/specs/Writing.antt.
    pub fn store(&self, form: Form, buffer: &mut [u8]) -> Result<usize, Rejection>
        ensures out_after { written_of result buffer.new ≡ store_by (form_named form) (network_of self.now) buffer.old }
        ensures length_in_bounds { InBuffer result buffer.new }
        ensures plain { Plain (network_of self.now) }
        ensures read_back { IfOk result (λ n. ReadsAs (take n buffer.new) (network_of self.now)) }
        ensures never_broken { IfErr result (λ e. e ≢ Rejection.BadShape) }
    {
        store_as(form, self.state, buffer)
    }

    /// Reads an image of either form, and returns the network that it is the image of. `bytes` may
    /// be any. What `store` wrote is read, and gives the network that was stored: so what is
    /// promised behind its calls goes on to be promised.
    ///
    /// Rejects with `BadImage` (13) unless the bytes are the image of a network in shape. Equals
    /// `load` of model_image_forms/specs/Reading.antt.
    pub fn load(bytes: &[u8]) -> Result<Network, Rejection>
        ensures loads { loaded_of (record_of result) ≡ load_by bytes.now }
        ensures never_broken { IfErr result (λ e. e ≢ Rejection.BadShape) }
        ensures reads { (w : Network') → ReadsAs bytes.now w → IsOkAnd result (λ n. network_of n ≡ w) }
    {
        match abt_image_mover::load(bytes) {
            Ok(read) => Ok(Network { state: read }),
            Err(rejection) => Err(rejection),
        }
    }
}
