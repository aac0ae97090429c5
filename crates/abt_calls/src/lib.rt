//! Calls on a network (rail), by value: one call, and lists of calls, for which all is promised
//! that the rules claim of a list of deliveries, runs and picks. It stands on `abt` (deliveries and
//! runs) and `abt_dispatch` (picks). Start at `play`: its contract, with specs/Histories.antt, says
//! what holds of the network that a history of calls leaves. The rules are in docs/RULES.md,
//! 'Rounds and the run', 'The dispatcher', 'Figures on every scanner' and 'Two tenants on one
//! rail'.
#![tactic(auto)]

ghost use Rattle.std.specs.Prelude.{◌≡◌, ◌*◌, ◌-◌, true, List, length, map, option_map};
ghost use Rattle.std.specs.List.{last_or};
ghost use Rattle.model_base.specs.Lists.{Any};
ghost use Rattle.model_network.specs.Delivery.{numbers_good};
ghost use Rattle.model_network.specs.Run.{Line as Line'};
ghost use Rattle.theorems_network.specs.Calls.{left_by_all, Deliver as Deliver', Run as Run'};
ghost use Rattle.theorems_isolation.specs.Tenants.{Naming, NamingAbove};
ghost use Rattle.model_dispatch.specs.Claims.{Serves, StaysDeliverable, picks_by};
ghost use Rattle.theorems_dispatch.specs.Steps.{Called as Called', Picked, left_by_steps, calls_in};
ghost use Rattle.abt_record.specs.Abstract.{network_of};
ghost use Rattle.abt_engine.specs.Refused.{rejected_number};
ghost use Rattle.abt_dispatch.specs.Abstract.{line_of, dispatcher_of, answered_number, served_of};
ghost use Rattle.abt_calls.specs.Outcomes.{unless_refused, came_to_pick, came_by_all, AllRefused};
ghost use Rattle.abt_calls.specs.Abstract.{step_of, came_of, AnswersAs};
ghost use Rattle.abt_calls.specs.Histories.{History, followed_by, Reached, Promised, PromisedFromStart, ActsAlike};

mod calls;

use abt_dispatch::{Dispatcher, Line};
pub use calls::{Call, Called, Outcome, Played};
use support_rejection::Rejection;

// ---- what a call came to

// This outcome, unless the call was rejected.
fn unless_refused(rejection: Option<Rejection>, accepted: Outcome) -> Outcome
    ensures { came_of result ≡ unless_refused (rejected_number rejection) (came_of accepted) }
{
    match rejection {
        None => accepted,
        Some(rejection) => Outcome::Refused(rejection),
    }
}

// The outcome of a pick, by its answer.
fn picked(answer: Result<Line, Rejection>) -> Outcome
    ensures { came_of result ≡ came_to_pick (served_of answer) (answered_number answer) }
{
    match answer {
        Ok(line) => Outcome::Served(line),
        Err(rejection) => Outcome::Refused(rejection),
    }
}

// ---- one call

// A delivery leaves the dispatcher's count and place.
fn deliver(d: Dispatcher, line: Line) -> Called
    ensures { AnswersAs d (Called' (Deliver' line.from line.to)) result }
{
    let answer = abt::deliver(d.network, line.from, line.to);
    Called {
        dispatcher: Dispatcher {
            network: answer.network,
            ..d
        },
        outcome: unless_refused(answer.rejection, Outcome::Delivered),
    }
}

// A run leaves the dispatcher's count and place.
fn run(d: Dispatcher, rounds: u64) -> Called
    ensures { AnswersAs d (Called' (Run' rounds)) result }
{
    let answer = abt::run(d.network, rounds);
    let ran = Outcome::Ran {
        ending: answer.ending,
        rounds: answer.rounds,
    };
    Called {
        dispatcher: Dispatcher {
            network: answer.network,
            ..d
        },
        outcome: unless_refused(answer.rejection, ran),
    }
}

fn pick(d: Dispatcher, wish: Line) -> Called
    ensures { AnswersAs d (Picked (line_of wish)) result }
{
    let answer = abt_dispatch::pick(d, wish);
    Called {
        dispatcher: answer.state,
        outcome: picked(answer.answer),
    }
}

/// Makes one call: the delivery, the run or the pick. Takes any dispatcher. A rejected call hands
/// back the very dispatcher given. Equals `left_by_step` of theorems_dispatch/specs/Steps.antt and,
/// for the outcome, `came_to` of specs/Outcomes.antt.
#[tactic(auto, unfolding(crate::specs::Abstract::step_of))]
pub fn call(dispatcher: Dispatcher, call: Call) -> Called
    ensures { AnswersAs dispatcher (step_of call) result }
{
    match call {
        Call::Deliver(line) => deliver(dispatcher, line),
        Call::Run(rounds) => run(dispatcher, rounds),
        Call::Pick(wish) => pick(dispatcher, wish),
    }
}

// ---- a list of calls

/// Makes the calls one after the other, each on the dispatcher that the one before left. A rejected
/// call changes nothing, and the calls after it are made. Takes any dispatcher; where a start and
/// any calls led to it, `Promised` of specs/Histories.antt holds of the network that is left.
/// Equals `left_by_steps` of theorems_dispatch/specs/Steps.antt.
pub fn play(dispatcher: Dispatcher, calls: &[Call]) -> Played
    // the dispatcher and the network are those of the definitions' list of steps, and of the calls
    // that it comes to
    ensures left { dispatcher_of result.dispatcher ≡ left_by_steps (map step_of calls.now) (dispatcher_of dispatcher) }
    ensures network { network_of result.dispatcher.network ≡ left_by_all (calls_in (map step_of calls.now) (dispatcher_of dispatcher)) (network_of dispatcher.network) }

    // what the last call came to, on the dispatcher that the calls before it left
    ensures came { option_map came_of result.last ≡ last_or None (came_by_all (map step_of calls.now) (dispatcher_of dispatcher)) }
    ensures untouched { AllRefused (map step_of calls.now) (dispatcher_of dispatcher) → result.dispatcher ≡ dispatcher }

    // a history that led to the dispatcher given goes on with these calls; so do those that begin
    // with the start of a sheet
    ensures reached { (h : History) → Reached h (dispatcher_of dispatcher) → Reached (followed_by h (map step_of calls.now)) (dispatcher_of result.dispatcher) }
    ensures promised { (h : History) → Reached h (dispatcher_of dispatcher) → Promised (followed_by h (map step_of calls.now)) (network_of result.dispatcher.network) }
    ensures from_start { PromisedFromStart (dispatcher_of dispatcher) (map step_of calls.now) (network_of result.dispatcher.network) }

    // the bans that must be alike: those with agents above it, which are all that an agent's rules
    // read; and all bans that name it
    ensures alike { ActsAlike NamingAbove (dispatcher_of dispatcher) (map step_of calls.now) (network_of result.dispatcher.network) }
    ensures named_alike { ActsAlike Naming (dispatcher_of dispatcher) (map step_of calls.now) (network_of result.dispatcher.network) }

    // where the calls are so many picks, a channel that stays deliverable until one of them serves
    // it is served by one of them
    ensures in_time { (l : Line') (wishes : List Line') → map step_of calls.now ≡ map Picked wishes
        → numbers_good (network_of dispatcher.network) l.from l.to ≡ true
        → length wishes ≡ 2 * (network_of dispatcher.network).problem.count * ((network_of dispatcher.network).problem.count - 1)
        → StaysDeliverable l wishes (dispatcher_of dispatcher) → Any (Serves l) (picks_by wishes (dispatcher_of dispatcher)) }
{
    let mut played = Played {
        dispatcher,
        last: None,
    };
    for next in calls {
        let called = call(played.dispatcher, *next);
        played = Played {
            dispatcher: called.dispatcher,
            last: Some(called.outcome),
        };
    }
    played
}
