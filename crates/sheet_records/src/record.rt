// A record, and the test of its fields. Only the test of the last two fields depends on the
// edition.
ghost use Rattle.std.specs.Prelude.{◌≡◌, ◌&&◌, ◌+◌, ◌*◌, ◌≤◌, ltb, leb, length};
ghost use Rattle.model_sheet.specs.Row.{values_good, fields_good};
ghost use Rattle.model_sheet.specs.Sheet.{agents_in, edition_in, without_bans, row_of as row_in, record_good};
ghost use Rattle.sheet_records.specs.Rows.{row_of, Possible};

use crate::bytes::Sheet;
use crate::gaps::Gaps;
use crate::header::{two_bytes, within};
use crate::row::Row;

// 1 <= lower < higher <= n.
fn agents_good(n: u8, row: Row) -> bool
    ensures { result ≡ (ltb 0 row.lower && ltb row.lower row.higher && leb row.higher n) }
{
    0 < row.lower && row.lower < row.higher && row.higher <= n
}

impl Sheet<'_> {
    /// Reads record `r`, whose eight bytes start at 16 + 8r. `r` is at least 1, and the record must
    /// lie within the sheet. Equals `row_of` of model_sheet/specs/Sheet.antt.
    pub fn row(&self, r: usize) -> Row
        requires { (1 ≤ r) × (24 + 8 * r ≤ length self.now.bytes.now) }
        ensures { row_of result ≡ row_in self.now.bytes.now r }
    {
        let at = 16 + 8 * r;
        Row {
            lower: self.bytes[at],
            higher: self.bytes[at + 1],
            low: self.bytes[at + 2],
            high: self.bytes[at + 3],
        }
    }

    // Edition 1: both values are owned.
    #[tactic(auto, unfolding(model_sheet::specs::Row::values_good, model_sheet::specs::Problem::owns))]
    fn values_good(&self, row: Row) -> bool
        requires { Possible row }
        ensures { result ≡ values_good (without_bans self.now.bytes.now) (row_of row) }
    {
        within(self.domain(row.lower as usize), row.low)
            && within(self.domain(row.higher as usize), row.high)
    }

    // Edition 1: both values are owned. Edition 2: a least and a greatest gap, as signed bytes,
    // each from -7 to 7, the least not above the greatest.
    #[tactic(auto, unfolding(model_sheet::specs::Row::gaps_good, model_sheet::specs::Row::fields_good, model_sheet::specs::Sheet::byte_at, model_sheet::specs::Sheet::edition_in))]
    fn fields_good(&self, row: Row) -> bool
        requires { Possible row }
        ensures { result ≡ fields_good (edition_in self.now.bytes.now) (without_bans self.now.bytes.now) (row_of row) }
    {
        if self.of_gaps() {
            Gaps::of(row).are_good()
        } else {
            self.values_good(row)
        }
    }

    /// Checks record `r`: its agents, its two fields, its next index and its last two bytes. n must
    /// be at most 12, `r` at least 1, and the record must lie within the sheet. Equals
    /// `record_good` of model_sheet/specs/Sheet.antt.
    #[tactic(auto, using(crate::proofs::Records::starts), unfolding(model_sheet::specs::Row::agents_good, model_sheet::specs::Row::row_good, model_sheet::specs::Sheet::byte_at, model_sheet::specs::Sheet::agents_in, model_sheet::specs::Sheet::records_in, model_sheet::specs::Sheet::without_bans, model_sheet::specs::Sheet::next_of, model_sheet::specs::Sheet::record_good))]
    pub fn record_good(&self, r: usize) -> bool
        requires { (agents_in self.now.bytes.now ≤ 12) × (1 ≤ r) × (24 + 8 * r ≤ length self.now.bytes.now) }
        ensures { result ≡ record_good self.now.bytes.now (without_bans self.now.bytes.now) r }
    {
        let s = self.bytes;
        let row = self.row(r);
        agents_good(s[0], row)
            && self.fields_good(row)
            && two_bytes(s, 20 + 8 * r) <= two_bytes(s, 4)
            && two_bytes(s, 22 + 8 * r) == 0
    }
}
