//! What holds of a network's image, in either form, and of lists of calls with writes and reads
//! between them.
ghost use Rattle.theorems_network.specs.Claims.{EveryProblem, EverySheet};
ghost use Rattle.model_image.specs.Claims.{ReadsFirst, OneFirst, ReadsOnlyFirst, ImageLength as FirstLength};
ghost use Rattle.model_image_forms.specs.Claims.{LaidBack, ReadsBack, OneRail, ReadsOnlyImages, ImageLength, MovesBack, MovesThrough};
ghost use Rattle.theorems_image.specs.Claims.{ReachedPlain, CarriesAcross, SoundAcross, CompleteAcross, RoundBoundAcross, RunBoundAcross, StaysPlain, CarriesAcrossAnywhere, ReadsWithRoom};
ghost use Rattle.promises.specs.Claims.{MovedForm, LargeOfSmall};

/// The first form: reading the image of a plain network in shape gives that network, an image is
/// the image of one such network, and nothing else is read. An image has 808 + 170 · n + 16 · k
/// bytes for k messages.
pub fn first_form()
    ensures reads { ReadsFirst }
    ensures one { OneFirst }
    ensures only { ReadsOnlyFirst }
    ensures length { FirstLength }
{}

/// The same of either form, the second with 10 bytes a message. No bytes are an image in both.
pub fn both_forms()
    ensures reads { ReadsBack }
    ensures one { OneRail }
    ensures only { ReadsOnlyImages }
    ensures length { ImageLength }
{}

/// Records laid by place are laid back, for every count and width of records. The second form of an
/// image, made large, is the image.
pub fn rearranged()
    ensures laid_back { LaidBack }
    ensures large { LargeOfSmall }
{}

/// An image moved is in the other form, and moved back it is the same bytes, through buffers too.
pub fn moved()
    ensures back { MovesBack }
    ensures through { MovesThrough }
    ensures form { MovedForm }
{}

/// Every network that calls lead to from a start is plain and in shape, so its image gives it back.
/// No call makes a plain network hold something outside its arrays. That every network of the code
/// is plain is a clause of `abt_image_mover::store_as`.
pub fn plain()
    ensures reached { EverySheet ReachedPlain }
    ensures reached_of_problems { EveryProblem ReachedPlain }
    ensures stays { StaysPlain }
{}

/// A list of calls with writes and reads between them leaves, tries and makes what its calls alone
/// do. A buffer with room for the image is written, and the read answers 0.
pub fn carried()
    ensures across { EverySheet CarriesAcross }
    ensures across_of_problems { EveryProblem CarriesAcross }
    ensures anywhere { CarriesAcrossAnywhere }
    ensures with_room { ReadsWithRoom }
{}

/// With nothing waiting and no verdict, such a list leaves values that obey all bans. The verdict
/// comes only where no assignment obeys all bans.
pub fn accuracy()
    ensures sound { EverySheet SoundAcross }
    ensures sound_of_problems { EveryProblem SoundAcross }
    ensures complete { EverySheet CompleteAcross }
    ensures complete_of_problems { EveryProblem CompleteAcross }
{}

/// Its full rounds, however marked off, and those that its runs return together, are at most
/// 16 · n · (d + 2)^n.
pub fn round_limit()
    ensures bounded { EverySheet RoundBoundAcross }
    ensures bounded_of_problems { EveryProblem RoundBoundAcross }
    ensures returned_bounded { EverySheet RunBoundAcross }
    ensures returned_bounded_of_problems { EveryProblem RunBoundAcross }
{}
