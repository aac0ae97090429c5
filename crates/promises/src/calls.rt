//! What holds of every list of deliveries and runs on a network, under either rule.
//!
//! `EverySheet C` claims C of the start of every sheet that is accepted, of either edition;
//! `EveryProblem C` claims C of the start of every problem in range. A claim with neither says
//! itself of which networks it holds.
ghost use Rattle.promises.specs.Claims.{WaitsAsHeld};
ghost use Rattle.theorems_network.specs.Claims.{EveryProblem, EverySheet, SoundAtRest, CompleteVerdict, StaysInShape, RoundBound, RunsMark, RunBound, RunsCount, Replay, AskedOnce, CountsExact, CountsCapped, SentIsReceivedAndWaiting, SentIsReceivedAndWaitingOf, CountsNeverFall, DeliverKeeps, RunKeeps, JammedExactly, NoneAfterNothing, RoundsUsed, RuleKept, RunTells, DeliveryTells};
ghost use Rattle.theorems_spinning.specs.Claims.{OfASheet, AllAccepted, NoFullRound, PassesTheBound, DeliveriesUnbounded};

/// With nothing waiting and no verdict, the values obey all bans. The verdict comes only where no
/// assignment obeys all bans.
pub fn accuracy()
    ensures sound { EverySheet SoundAtRest }
    ensures sound_of_problems { EveryProblem SoundAtRest }
    ensures complete { EverySheet CompleteVerdict }
    ensures complete_of_problems { EveryProblem CompleteVerdict }
{}

/// However full rounds are marked off, there are at most 16 · n · (d + 2)^n of them, d the largest
/// domain. The full rounds that the runs of a list return together are no more either.
pub fn round_limit()
    ensures bounded { EverySheet RoundBound }
    ensures bounded_of_problems { EveryProblem RoundBound }
    ensures returned_bounded { EverySheet RunBound }
    ensures returned_bounded_of_problems { EveryProblem RunBound }
{}

/// Each run returns exactly how many of its own rounds were full. The runs' own rounds are one way
/// to mark off the list.
pub fn counted_rounds()
    ensures exact { EverySheet RunsCount }
    ensures exact_of_problems { EveryProblem RunsCount }
    ensures marked { EverySheet RunsMark }
    ensures marked_of_problems { EveryProblem RunsMark }
{}

/// Delivering a run's tries one by one leaves the network that the run leaves and rejects the same
/// tries, on every network, forged ones too. From every start, what waits by the list's definition
/// is what the channel holds.
pub fn replayed()
    ensures replay { Replay }
    ensures waits { WaitsAsHeld }
{}

/// A run on any network, forged ones too, ends `jammed` exactly where its last round was whole and
/// delivered nothing while something waits, and no round follows one that delivered nothing. It
/// makes no more rounds than it is allowed, and all of them where it ends `open`.
pub fn endings()
    ensures jammed { JammedExactly }
    ensures at_once { NoneAfterNothing }
    ensures used { RoundsUsed }
{}

/// Every network reached from a start is in shape. A delivery and a run keep the shape and the rule
/// of every network, forged ones too.
pub fn shape()
    ensures reached { EverySheet StaysInShape }
    ensures reached_of_problems { EveryProblem StaysInShape }
    ensures delivery { DeliverKeeps }
    ensures run { RunKeeps }
    ensures rule { RuleKept }
{}

/// A link is asked for once: no AddLink waits from an agent that is informed already, and no two
/// wait on one channel.
pub fn links()
    ensures asked_once { EverySheet AskedOnce }
    ensures asked_once_of_problems { EveryProblem AskedOnce }
{}

/// The six counts of each agent are exact below the top and capped at it. Below the top the total
/// sent is the total received plus what waits, in each sort too. No count ever falls.
pub fn figures()
    ensures exact { EverySheet CountsExact }
    ensures exact_of_problems { EveryProblem CountsExact }
    ensures capped { EverySheet CountsCapped }
    ensures capped_of_problems { EveryProblem CountsCapped }
    ensures balanced { EverySheet SentIsReceivedAndWaiting }
    ensures balanced_of_problems { EveryProblem SentIsReceivedAndWaiting }
    ensures balanced_by_sort { EverySheet SentIsReceivedAndWaitingOf }
    ensures balanced_by_sort_of_problems { EveryProblem SentIsReceivedAndWaitingOf }
    ensures never_fall { CountsNeverFall }
{}

/// What the word, the full rounds and the values of a run tell of the problem, behind any calls;
/// and what the network that a delivery leaves tells.
pub fn answers()
    ensures run { EverySheet RunTells }
    ensures run_of_problems { EveryProblem RunTells }
    ensures delivery { EverySheet DeliveryTells }
    ensures delivery_of_problems { EveryProblem DeliveryTells }
{}

/// The bound is on full rounds, not on deliveries: on one sheet a list of accepted deliveries goes
/// on for any number of turns, has no full round, and passes the bound.
pub fn unbounded()
    ensures sheet { OfASheet }
    ensures accepted { AllAccepted }
    ensures never_full { NoFullRound }
    ensures passes { PassesTheBound }
    ensures unbounded { DeliveriesUnbounded }
{}
