//! What holds of lists that mix deliveries, runs, picks, and writes and reads of the network in
//! either form.
ghost use Rattle.theorems_network.specs.Claims.{EveryProblem, EverySheet};
ghost use Rattle.theorems_isolation.specs.Tenants.{Naming, NamingAbove};
ghost use Rattle.theorems_lists.specs.Claims.{ComesToCalls, ComesToCallsAnywhere, SoundMixed, CompleteMixed, ReachedMixed, RoundBoundMixed, RunBoundMixed, RunsCountMixed, RunsMarkMixed, CountsExactMixed, CountsCappedMixed, SentIsReceivedAndWaitingMixed, SentIsReceivedAndWaitingOfMixed, AskedOnceMixed, StaysMixed, CountsNeverFallMixed, RuleKeptMixed, ActsAlikeMixed, FromStart, Comes, StandsMixed, RunTellsMixed};

/// Such a list leaves, tries, makes, hands over and sends what the calls that it comes to do, and
/// every read answers 0: from a start, and from every plain network in shape.
pub fn calls()
    ensures calls { EverySheet ComesToCalls }
    ensures calls_of_problems { EveryProblem ComesToCalls }
    ensures from_start { EverySheet (λ rule p. FromStart rule p Comes) }
    ensures anywhere { ComesToCallsAnywhere }
{}

/// With nothing waiting and no verdict, the values obey all bans. The verdict comes only where no
/// assignment obeys all bans.
pub fn accuracy()
    ensures sound { EverySheet SoundMixed }
    ensures sound_of_problems { EveryProblem SoundMixed }
    ensures complete { EverySheet CompleteMixed }
    ensures complete_of_problems { EveryProblem CompleteMixed }
{}

/// What the network that such a list leaves tells of the problem, and what the word, the full
/// rounds and the values of a run behind it tell.
pub fn answers()
    ensures stands { EverySheet StandsMixed }
    ensures stands_of_problems { EveryProblem StandsMixed }
    ensures run { EverySheet RunTellsMixed }
    ensures run_of_problems { EveryProblem RunTellsMixed }
{}

/// However full rounds are marked off, there are at most 16 · n · (d + 2)^n of them. The full
/// rounds that the runs of a list return together are no more either.
pub fn round_limit()
    ensures bounded { EverySheet RoundBoundMixed }
    ensures bounded_of_problems { EveryProblem RoundBoundMixed }
    ensures returned_bounded { EverySheet RunBoundMixed }
    ensures returned_bounded_of_problems { EveryProblem RunBoundMixed }
{}

/// Each run returns exactly how many of its own rounds were full. The runs' own rounds are one way
/// to mark off the list.
pub fn counted_rounds()
    ensures exact { EverySheet RunsCountMixed }
    ensures exact_of_problems { EveryProblem RunsCountMixed }
    ensures marked { EverySheet RunsMarkMixed }
    ensures marked_of_problems { EveryProblem RunsMarkMixed }
{}

/// Every network reached is in shape and plain, so its image gives it back. A plain network in
/// shape stays so, and keeps its rule.
pub fn shape()
    ensures reached { EverySheet ReachedMixed }
    ensures reached_of_problems { EveryProblem ReachedMixed }
    ensures stays { StaysMixed }
    ensures rule { RuleKeptMixed }
{}

/// A link is asked for once: no AddLink waits from an agent that is informed already, and no two
/// wait on one channel.
pub fn links()
    ensures asked_once { EverySheet AskedOnceMixed }
    ensures asked_once_of_problems { EveryProblem AskedOnceMixed }
{}

/// The six counts of each agent are exact below the top and capped at it. Below the top the total
/// sent is the total received plus what waits, in each sort too. No count ever falls.
pub fn figures()
    ensures exact { EverySheet CountsExactMixed }
    ensures exact_of_problems { EveryProblem CountsExactMixed }
    ensures capped { EverySheet CountsCappedMixed }
    ensures capped_of_problems { EveryProblem CountsCappedMixed }
    ensures balanced { EverySheet SentIsReceivedAndWaitingMixed }
    ensures balanced_of_problems { EveryProblem SentIsReceivedAndWaitingMixed }
    ensures balanced_by_sort { EverySheet SentIsReceivedAndWaitingOfMixed }
    ensures balanced_by_sort_of_problems { EveryProblem SentIsReceivedAndWaitingOfMixed }
    ensures never_fall { CountsNeverFallMixed }
{}

/// Noninterference: on two plain networks in shape that are alike in an agent that is handed the
/// same, the agent ends with the same record and has sent the same.
pub fn acts_alike()
    ensures named { ActsAlikeMixed Naming }
    ensures above { ActsAlikeMixed NamingAbove }
{}
