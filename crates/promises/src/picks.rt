//! What holds of the dispatcher's picks, and of lists of picks, deliveries and runs.
ghost use Rattle.theorems_network.specs.Claims.{EveryProblem, EverySheet};
ghost use Rattle.model_dispatch.specs.Claims.{ServedInTime, HeadsStay, PicksCounted, PicksDeliver};
ghost use Rattle.theorems_dispatch.specs.Claims.{PicksAreCalls, SoundWithPicks, CompleteWithPicks, InShapeWithPicks, RoundBoundWithPicks, RunBoundWithPicks};

/// The head of a channel that stays deliverable is served within 2 · n · (n - 1) picks, however the
/// host chooses.
pub fn served()
    ensures in_time { ServedInTime }
    ensures heads_stay { HeadsStay }
{}

/// The count of picks grows by the deliveries that the picks make, and stays at its top. A pick
/// that serves a channel is the accepted delivery on it; one that serves none changes nothing.
pub fn counted()
    ensures counted { PicksCounted }
    ensures delivered { PicksDeliver }
{}

/// A list with picks leaves the network that the calls that it comes to leave, and from a start
/// that network is in shape.
pub fn calls()
    ensures calls { PicksAreCalls }
    ensures in_shape { EverySheet InShapeWithPicks }
    ensures in_shape_of_problems { EveryProblem InShapeWithPicks }
{}

/// With nothing waiting and no verdict, such a list leaves values that obey all bans. The verdict
/// comes only where no assignment obeys all bans.
pub fn accuracy()
    ensures sound { EverySheet SoundWithPicks }
    ensures sound_of_problems { EveryProblem SoundWithPicks }
    ensures complete { EverySheet CompleteWithPicks }
    ensures complete_of_problems { EveryProblem CompleteWithPicks }
{}

/// Its full rounds, however marked off, and those that its runs return together, are at most
/// 16 · n · (d + 2)^n.
pub fn round_limit()
    ensures bounded { EverySheet RoundBoundWithPicks }
    ensures bounded_of_problems { EveryProblem RoundBoundWithPicks }
    ensures returned_bounded { EverySheet RunBoundWithPicks }
    ensures returned_bounded_of_problems { EveryProblem RunBoundWithPicks }
{}
