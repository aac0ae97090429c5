// What one record bans: a word of pairs of values, which is put into the table of bans. The lower
// agent's value v with the higher's value w has bit 8 * (v - 1) + w - 1.
ghost use Rattle.std.specs.Prelude.{◌≡◌, ◌&&◌, ◌+◌, ◌≤◌, ◌<◌, eqb};
ghost use Rattle.model_base.specs.Finite.{within};
ghost use Rattle.model_sheet.specs.Row.{between, gap};
ghost use Rattle.sheet_records.specs.Parts.{Pairs, row_pairs, Good, Short, table_with};

use crate::bytes::Sheet;
use crate::gaps::Gaps;
use crate::index::word_at;

// The word of one pair: the lower agent's value v with the higher's value w.
fn one_pair(v: usize, w: usize) -> u64
    requires { (1 ≤ v) × (v ≤ 8) × (1 ≤ w) × (w ≤ 8) }
    ensures { Pairs result (λ a b. eqb a v && eqb b w) }
{
    1u64 << (8 * (v - 1) + (w - 1))
}

// The pairs of the first d values of the lower and the first e values of the higher.
fn owned(d: usize, e: usize) -> u64
    requires { (1 ≤ d) × (d ≤ 8) × (1 ≤ e) × (e ≤ 8) }
    ensures { Pairs result (λ v w. within d v && within e w) }
{
    let lower = u64::MAX >> (64 - 8 * d);
    let higher = ((1u64 << e) - 1) * 0x0101010101010101;
    lower & higher
}

// The pairs with gap k - 7, the higher's value minus the lower's: a diagonal of the word.
fn diagonal(k: usize) -> u64
    requires { k < 15 }
    ensures { Pairs result (λ v w. eqb (w + 7) (k + v)) }
{
    if k < 7 {
        0x8040201008040201u64 << (8 * (7 - k))
    } else {
        0x8040201008040201u64 >> (8 * (k - 7))
    }
}

impl Gaps {
    // The pairs with gap k - 7, if it is one of these gaps; else none.
    fn hit(self, k: usize) -> u64
        requires { k < 15 }
        ensures { Pairs result (λ v w. eqb (w + 7) (k + v) && between self.least self.greatest (gap v w)) }
    {
        if self.contains(k as i8 - 7) {
            diagonal(k)
        } else {
            0
        }
    }

    // The pairs whose gap is one of these.
    fn band(self) -> u64
        ensures { Pairs result (λ v w. between self.least self.greatest (gap v w)) }
    {
        let mut word = 0;
        for k in 0..15 {
            word |= self.hit(k);
        }
        word
    }
}

// Edition 2: of the first d values of the lower and the first e of the higher, the pairs whose gap
// is one of these.
fn gap_pairs(d: u8, e: u8, gaps: Gaps) -> u64
    requires { (1 ≤ d) × (d ≤ 8) × (1 ≤ e) × (e ≤ 8) }
    ensures { Pairs result (λ v w. within d v && within e w && between gaps.least gaps.greatest (gap v w)) }
{
    owned(d as usize, e as usize) & gaps.band()
}

impl Sheet<'_> {
    // The pairs that record r bans.
    fn row_pairs(&self, r: usize) -> u64
        requires { Good self.now.bytes.now r }
        ensures { Pairs result (row_pairs self.now.bytes.now r) }
    {
        let row = self.row(r);
        if self.of_gaps() {
            let d = self.domain(row.lower as usize);
            let e = self.domain(row.higher as usize);
            gap_pairs(d, e, Gaps::of(row))
        } else {
            one_pair(row.low as usize, row.high as usize)
        }
    }

    /// Adds the pairs that record `r` bans to the table `bans`. The header and the record must be
    /// good. Equals `table_with` of specs/Parts.antt.
    pub fn add_record(&self, bans: &mut [u64; 66], r: usize)
        requires { Good self.now.bytes.now r × Short bans.old }
        ensures { bans.new ≡ table_with self.now.bytes.now r bans.old }
    {
        let row = self.row(r);
        let word = word_at(row.lower as usize, row.higher as usize);
        bans[word] |= self.row_pairs(r);
    }
}
