//! Why a call is turned back: every error number, 1 to 15 without 9, as a [`Rejection`]. It stands
//! on no other crate; the crates above that reject a call with a number return one of these. Start
//! at [`Rejection`]. docs/RULES.md, 'Why a call comes back'.
#![tactic(auto)]

ghost use Rattle.std.specs.Prelude.{◌≡◌};
ghost use Rattle.support_rejection.specs.Rejections.{rejection_number};

/// Why a call is turned back. The discriminant is the error's number.
#[derive(Clone, Copy, Debug, PartialEq, Eq)]
pub enum Rejection {
    /// The sheet is shorter than 24 bytes, or is not 24 + 8m bytes long for its m records.
    BadLength = 1,
    /// A byte of the sheet's header is outside its range, the edition among them, or the first
    /// index is above m.
    BadHeader = 2,
    /// A record on the sheet's chain has a fault.
    BadRecord = 3,
    /// The sheet's chain comes back to a record.
    Cycle = 4,
    /// The network is not in shape.
    BadShape = 5,
    /// An agent's number is not 1 to n, or the two are equal.
    BadNumbers = 6,
    /// The network has a verdict already.
    VerdictStands = 7,
    /// The channel is empty; for a pick, all channels are.
    EmptyChannel = 8,
    /// A channel would come to hold more than eight messages; for a pick, messages wait and none
    /// can be delivered.
    NoRoom = 10, // "no room"
    /// The rule is neither 1 nor 2.
    BadRule = 11,
    /// The lent buffer is shorter than what is to be written.
    ShortBuffer = 12,
    /// The bytes are not the image of a network in shape, or bytes follow it.
    BadImage = 13,
    /// The ordinal of a little sheet is above 4,995.
    BadOrdinal = 14,
    /// The sheet is good, and gaps cannot say its bans.
    NotSayable = 15,
}

impl Rejection {
    /// Returns the error's number, 1 to 15 and never 9. Equals `rejection_number` of
    /// specs/Rejections.antt.
    pub fn number(self) -> u8
        ensures { result ≡ rejection_number self }
    {
        self as u8
    }
}
