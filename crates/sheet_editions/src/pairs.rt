// What the word of two agents says.
ghost use Rattle.std.specs.Prelude.{◌≡◌, ◌&&◌, ◌≤◌, eqb};
ghost use Rattle.model_base.specs.Bits.{bit};
ghost use Rattle.model_sheet.specs.Problem.{bit_at};
ghost use Rattle.model_editions.specs.Gaps.{place_of, has_gap};
ghost use Rattle.sheet_editions.specs.Rows.{Marked, gap_with};
ghost use Rattle.sheet_editions.specs.Pairs.{word_sayable};

use crate::bits::has;
use crate::gaps::Gaps;
use crate::pair::Pair;

impl Pair {
    /// Returns whether the lower agent's value `v` is banned with the higher's value `w`, each
    /// 1 to 8.
    #[tactic(auto, unfolding(model_sheet::specs::Problem::bit_at))]
    pub fn bans(self, v: u8, w: u8) -> bool
        requires { (1 ≤ v) × (v ≤ 8) × (1 ≤ w) × (w ≤ 8) }
        ensures { result ≡ bit self.word (bit_at v w) }
    {
        has(self.word, 8 * (v - 1) + (w - 1))
    }

    // Returns the set with the gap of these two values, if the word bans the pair.
    fn with_gap(self, gaps: Gaps, v: u8, w: u8) -> Gaps
        requires { (1 ≤ v) × (v ≤ 8) × (1 ≤ w) × (w ≤ 8) }
        ensures { Marked gaps.bits result.bits (λ k. eqb (place_of v w) k && bit self.word (bit_at v w)) }
    {
        if !self.bans(v, w) {
            return gaps;
        }
        Gaps {
            bits: gaps.bits | 1 << (w + 7 - v),
        }
    }

    // Returns the set with the gaps of the pairs that the word bans of the lower's value v.
    fn gaps_with(self, mut gaps: Gaps, v: u8) -> Gaps
        requires { (1 ≤ v) × (v ≤ 8) }
        ensures { Marked gaps.bits result.bits (gap_with self.others self.word v) }
    {
        for w in 1..=self.others {
            gaps = self.with_gap(gaps, v, w);
        }
        gaps
    }

    /// Returns the gaps of the banned pairs of owned values. Equals `has_gap` of
    /// model_editions/specs/Gaps.antt, bit by bit.
    pub fn gaps(self) -> Gaps
        ensures { Marked 0 result.bits (has_gap self.slots self.others (λ v w. bit self.word (bit_at v w))) }
    {
        let mut gaps = Gaps::none();
        for v in 1..=self.slots {
            gaps = self.gaps_with(gaps, v);
        }
        gaps
    }

    /// Returns whether no gap is both that of a banned pair of owned values and that of a free one.
    /// Equals `word_sayable` of specs/Pairs.antt.
    pub fn is_sayable(self) -> bool
        ensures { result ≡ word_sayable self.slots self.others self.word }
    {
        let mut free = self;
        free.word = !self.word;
        self.gaps().bits & free.gaps().bits == 0
    }
}
