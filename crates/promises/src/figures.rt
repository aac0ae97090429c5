//! What holds of a season's figures.
ghost use Rattle.model_season.specs.Claims.{EachKnown, AddUp, AnyOrder, StreamsInAnyOrder, OneMoreSheet, MeanOver, SumBound, ReadsStream, ReadsNoMore, CappedInTurn, NeverCapped};

/// Every sheet is rejected with 1 to 4 or ends in one of the four words. Rejected sheets and words
/// add up to the sheets; the rounds counted are those of `none` and `plan`, and their sum is at
/// most 100,000 times the number of sheets.
pub fn counted()
    ensures known { EachKnown }
    ensures add_up { AddUp }
    ensures one_more { OneMoreSheet }
    ensures mean { MeanOver }
    ensures bounded { SumBound }
{}

/// The same whole sheets in another order give the same figures, read from streams too.
pub fn ordered()
    ensures sheets { AnyOrder }
    ensures streams { StreamsInAnyOrder }
{}

/// Whole sheets are read as they stand in the stream, up to the most allowed. Nothing behind the
/// last one allowed is read.
pub fn streams()
    ensures read { ReadsStream }
    ensures no_more { ReadsNoMore }
{}

/// Counted one by one and capped each time at the top of 64 bits, sheets come to the same as
/// counted together and capped once. The cap changes nothing where 100,000 times the number of
/// sheets is at most that top.
pub fn capped()
    ensures in_turn { CappedInTurn }
    ensures never { NeverCapped }
{}
