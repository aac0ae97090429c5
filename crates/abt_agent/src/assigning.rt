//! Left-hand sides as messages carry them.
ghost use Rattle.std.specs.Prelude.{◌≡◌, ◌<◌};
ghost use Rattle.abt_agent.specs.Abstract.{unpacked};

use crate::{Assignment, PackedAssignment};

impl Assignment {
    /// Returns the assignment as a message carries it. It names no agent beyond 12: `digits` is
    /// under 2^48.
    pub(crate) fn pack(self) -> PackedAssignment
        requires { self.digits < 281474976710656 }
        ensures { unpacked result ≡ self.digits }
    {
        PackedAssignment {
            low: (self.digits % 65536) as u16,
            middle: (self.digits / 65536 % 65536) as u16,
            high: (self.digits / 4294967296) as u16,
        }
    }
}

impl PackedAssignment {
    /// Returns the assignment that a message carries.
    pub fn unpack(self) -> Assignment
        ensures { result.digits ≡ unpacked self }
    {
        Assignment {
            digits: self.low as u64 + 65536 * self.middle as u64 + 4294967296 * self.high as u64,
        }
    }
}
