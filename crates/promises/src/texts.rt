//! What holds of sheets as text.
ghost use Rattle.model_text.specs.Claims.{SheetsAccepted, TextsReadAgain, TextsShort, BansAsWritten, SlotsAsWritten, JudgedByFront};

/// Every sheet that a text gives is accepted. It has the domains of the `slots` line and bans what
/// the `ban` and `gap` lines say, and nothing else. The first 1,048,577 bytes of a text decide what
/// it gives.
pub fn reading()
    ensures accepted { SheetsAccepted }
    ensures slots { SlotsAsWritten }
    ensures bans { BansAsWritten }
    ensures front { JudgedByFront }
{}

/// The text of a sheet, read again, gives a sheet with the same problem and the same text. It has
/// at most 67,614 bytes.
pub fn telling()
    ensures again { TextsReadAgain }
    ensures short { TextsShort }
{}
