//! What holds of turning a sheet of one edition into one of the other.
ghost use Rattle.theorems_editions.specs.Claims.{BansKept, GapsKept, RefusedAsSaid, BackAgain, TwiceFromGaps, TwiceFromBans};

/// Turning keeps domains and bans, either way. The sheet written is accepted, of the other edition,
/// and no longer than the longest sheet.
pub fn kept()
    ensures bans { BansKept }
    ensures gaps { GapsKept }
{}

/// 15 is given exactly where two agents have two owned pairs of values with equal gap, one banned
/// and one free.
pub fn refused()
    ensures as_said { RefusedAsSaid }
{}

/// A ban sheet made of gaps is sayable in gaps. There and back a second time gives the same bytes
/// as the first, from either edition.
pub fn there_and_back()
    ensures back_again { BackAgain }
    ensures from_gaps { TwiceFromGaps }
    ensures from_bans { TwiceFromBans }
{}
