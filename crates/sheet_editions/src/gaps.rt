// A set of gaps, and its runs.
ghost use Rattle.std.specs.Prelude.{◌≡◌, ◌^◌, ◌<◌};
ghost use Rattle.model_base.specs.Bits.{bit};
ghost use Rattle.model_editions.specs.Gaps.{gap_byte, begins, last_of};

use crate::bits::has;

/// A set of gaps. Places 0 to 14 stand for the gaps from -7 to 7.
#[derive(Clone, Copy)]
pub struct Gaps {
    /// Bit k is 1 where the gap at place k is in the set.
    pub bits: u64,
    pub ghost short: { bits < 2 ^ 15 },
}

impl Gaps {
    /// Returns the empty set.
    pub fn none() -> Gaps
        ensures { result.bits ≡ 0 }
    {
        Gaps { bits: 0 }
    }

    /// Returns whether a run begins at place `k`, 0 to 14: that gap is in the set, and the one
    /// below it is not. Equals `begins` of model_editions/specs/Gaps.antt.
    pub fn begins(self, k: u8) -> bool
        requires { k < 15 }
        ensures { result ≡ begins (bit self.bits) k }
    {
        has(self.bits, k) && (k == 0 || !has(self.bits, k - 1))
    }

    /// Returns the last place, 0 to 14, of the run that begins at place `k`, 0 to 14. Equals
    /// `last_of` of model_editions/specs/Gaps.antt.
    pub fn last_of(self, k: u8) -> u8
        requires { k < 15 }
        ensures { (result ≡ last_of (bit self.bits) k) × (result < 15) }
    {
        for last in k..14 {
            if !has(self.bits, last + 1) {
                return last;
            }
        }
        14
    }
}

/// Returns the gap at place `k`, 0 to 14, as a signed byte. Equals `gap_byte` of
/// model_editions/specs/Gaps.antt.
#[tactic(auto, unfolding(model_editions::specs::Gaps::gap_byte))]
pub fn gap_byte(k: u8) -> u8
    requires { k < 15 }
    ensures { result ≡ gap_byte k }
{
    (k as i8 - 7).cast_unsigned()
}
