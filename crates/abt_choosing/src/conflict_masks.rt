//! What the bans and an agent view bar. Agents are numbers from 1 to 16, own values from 1 to 8.
ghost use Rattle.std.specs.Prelude.{◌≡◌, ◌&&◌, ℕ, pred, ◌≤◌};
ghost use Rattle.model_base.specs.Finite.{at, is_some, lowest};
ghost use Rattle.model_base.specs.Bits.{bit};
ghost use Rattle.model_agent.specs.Message.{known};
ghost use Rattle.model_agent.specs.Shape.{max_named};
ghost use Rattle.abt_packed.specs.Packed.{assignment};
ghost use Rattle.abt_choosing.specs.Conflicts.{Able, ViewFits, bans_in, conflicts_at, byte_of, ConflictsOf};

use crate::{AgentConfig, Conflicts};
use abt_packed::{Entries, field, with_field};

/// Returns the mask of the own values that an agent above bars at its value `v`, 1 to 8. `word` has
/// the bans between the two: bit `8 * (v - 1) + w - 1` bans own value w. Equals `conflicts_at` of
/// specs/Conflicts.antt.
pub fn conflicts_at(word: u64, v: u8) -> u8
    requires { (1 ≤ v) × (v ≤ 8) }
    ensures { result ≡ conflicts_at word v }
{
    field::<8>(word, v)
}

impl Conflicts {
    /// Returns the same with `byte` for agent `k`, 1 to 16.
    pub fn with(self, k: u8, byte: u8) -> Conflicts
        requires { (1 ≤ k) × (k ≤ 16) }
        ensures { (j : ℕ) → 1 ≤ j → j ≤ 16 → byte_of result j ≡ at (byte_of self) k byte j }
    {
        if k <= 8 {
            Conflicts {
                low: with_field::<8>(self.low, k, byte),
                ..self
            }
        } else {
            Conflicts {
                high: with_field::<8>(self.high, k - 8, byte),
                ..self
            }
        }
    }

    /// Works out what a packed view bars: `ConflictsOf` of specs/Conflicts.antt. `bans` has a word
    /// for each agent above, agent k's at place k - 1. The view names only agents above, at values
    /// of at most 8.
    pub fn of(view: u64, own: AgentConfig, bans: &[u64]) -> Conflicts
        requires able { Able own bans.now }
        requires view_fits { ViewFits own (assignment view) }
        ensures { ConflictsOf (bans_in bans.now) (assignment view) result }
    {
        let mut b = Conflicts::default();
        for (k, v) in Entries(view) {
            b = b.with(k, conflicts_at(bans[k as usize - 1], v));
        }
        b
    }

    /// Returns whether some agent bars own value `w`, 1 to 8.
    pub fn bans(self, w: u8) -> bool
        requires { (1 ≤ w) × (w ≤ 8) }
        ensures { result ≡ is_some (lowest max_named 1 (λ k. bit (byte_of self k) (pred w))) }
    {
        // the number has the lowest bit of each byte
        ((self.low | self.high) >> (w - 1)) & 0x0101_0101_0101_0101 != 0
    }

    /// Returns the mask of the own values that some agent bars.
    pub(crate) fn all(self) -> u8
        ensures { (w : ℕ) → 1 ≤ w → w ≤ 8 → bit result (pred w) ≡ is_some (lowest max_named 1 (λ k. bit (byte_of self k) (pred w))) }
    {
        let eight = self.low | self.high;
        let four = eight | (eight >> 32);
        let two = four | (four >> 16);
        ((two | (two >> 8)) % 256) as u8
    }

    /// Returns the lowest-numbered agent that bars own value `w`, 1 to 8, if one does.
    pub(crate) fn first(self, w: u8) -> Option<u8>
        requires { (1 ≤ w) × (w ≤ 8) }
        ensures { result ≡ lowest max_named 1 (λ k. bit (byte_of self k) (pred w)) }
    {
        let low = (self.low >> (w - 1)) & 0x0101_0101_0101_0101;
        let high = (self.high >> (w - 1)) & 0x0101_0101_0101_0101;
        if low != 0 {
            Some(low.trailing_zeros() as u8 / 8 + 1)
        } else if high != 0 {
            Some(high.trailing_zeros() as u8 / 8 + 9)
        } else {
            None
        }
    }

    // The mask of the own values that agent `k` bars.
    fn byte(self, k: u8) -> u8
        requires { (1 ≤ k) × (k ≤ 16) }
        ensures { result ≡ byte_of self k }
    {
        if k <= 8 {
            field::<8>(self.low, k)
        } else {
            field::<8>(self.high, k - 8)
        }
    }

    /// Returns the lowest-numbered agent that bars own value `w`, 1 to 8, of those that the word
    /// `named` names, if one of them does.
    pub(crate) fn first_of(self, named: u64, w: u8) -> Option<u8>
        requires { (1 ≤ w) × (w ≤ 8) }
        ensures { result ≡ lowest max_named 1 (λ k. bit (byte_of self k) (pred w) && known (assignment named k)) }
    {
        for (k, _) in Entries(named) {
            if (self.byte(k) >> (w - 1)) % 2 == 1 {
                return Some(k);
            }
        }
        None
    }
}
