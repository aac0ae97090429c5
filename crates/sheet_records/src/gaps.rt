// The gaps that a record of edition 2 says.
ghost use Rattle.std.specs.Prelude.{◌≡◌, ◌&&◌, pos, neg_ℤ};
ghost use Rattle.std.specs.Int.Signed.{le_z};
ghost use Rattle.model_sheet.specs.Row.{signed, between, gaps_good};
ghost use Rattle.sheet_records.specs.Rows.{row_of};

use crate::row::Row;

/// The gaps from `least` to `greatest`, both included.
#[derive(Clone, Copy)]
pub struct Gaps {
    pub least: i8,
    pub greatest: i8,
}

// From -7 to 7.
#[tactic(auto, unfolding(model_sheet::specs::Row::between))]
fn gap_good(gap: i8) -> bool
    ensures { result ≡ between (neg_ℤ (pos 7)) (pos 7) gap }
{
    (-7..=7).contains(&gap)
}

/// Reads a byte as a signed number, two's complement: -128 to 127. Equals `signed` of
/// model_sheet/specs/Row.antt.
#[tactic(auto, unfolding(model_sheet::specs::Row::signed))]
pub fn signed(b: u8) -> i8
    ensures { result ≡ signed b }
{
    b.cast_signed()
}

impl Gaps {
    /// Reads the two fields of a record of edition 2 as signed bytes.
    pub fn of(row: Row) -> Gaps
        ensures { (result.least ≡ signed row.low) × (result.greatest ≡ signed row.high) }
    {
        Gaps {
            least: signed(row.low),
            greatest: signed(row.high),
        }
    }

    /// Returns whether `gap` is one of these gaps. Equals `between` of model_sheet/specs/Row.antt.
    #[tactic(auto, unfolding(model_sheet::specs::Row::between))]
    pub fn contains(self, gap: i8) -> bool
        ensures { result ≡ between self.least self.greatest gap }
    {
        (self.least..=self.greatest).contains(&gap)
    }

    /// Returns whether both lie from -7 to 7 and the least is not above the greatest: the test
    /// `gaps_good` of model_sheet/specs/Row.antt.
    pub fn are_good(self) -> bool
        ensures { result
            ≡ (between (neg_ℤ (pos 7)) (pos 7) self.least && between (neg_ℤ (pos 7)) (pos 7) self.greatest && le_z self.least self.greatest) }
    {
        gap_good(self.least) && gap_good(self.greatest) && self.least <= self.greatest
    }
}
