//! What holds of sheets as bytes: what is read, and what is written.
ghost use Rattle.model_sheet.specs.Chain.{DecodesInRange, BansAsSaid, LinksAsBanned};
ghost use Rattle.promises.specs.Claims.{CutDecodes, WritingDecodes, WritingBans};

/// An accepted sheet gives a problem in range. Its table holds exactly the bans of the records on
/// the chain, and two agents are linked exactly if some ban names both. Input longer than any sheet
/// comes out as its first 33,817 bytes do.
pub fn reading()
    ensures in_range { DecodesInRange }
    ensures bans { BansAsSaid }
    ensures links { LinksAsBanned }
    ensures cut { CutDecodes }
{}

/// A sheet written of at most 4,224 good rows is accepted, and bans exactly what the rows ban.
pub fn writing()
    ensures accepted { WritingDecodes }
    ensures bans { WritingBans }
{}
