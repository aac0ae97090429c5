// The records of a draft.
ghost use Rattle.std.specs.Prelude.{◌≡◌, ◌<◌, ◌&&◌, true};
ghost use Rattle.std.specs.Int.Signed.{le_z};
ghost use Rattle.sheet_writer.specs.Rows.{row_of};
ghost use Rattle.model_text.specs.Drafts.{ban_record, gap_byte, is_gap, gap_record};

use sheet_text_statements::{Ban, Gap};
use sheet_writer::Row;

/// Returns the record of a ban, the lower-numbered agent first and its value with it. All four
/// numbers must be below 256. Equals `ban_record` of model_text/specs/Drafts.antt.
pub fn ban_row(q: Ban) -> Row
    requires { (q.a < 256) × (q.s < 256) × (q.b < 256) × (q.t < 256) }
    ensures { row_of result ≡ ban_record q.a q.s q.b q.t }
{
    if q.a < q.b {
        Row {
            lower: q.a as u8,
            higher: q.b as u8,
            low: q.s as u8,
            high: q.t as u8,
        }
    } else {
        Row {
            lower: q.b as u8,
            higher: q.a as u8,
            low: q.t as u8,
            high: q.s as u8,
        }
    }
}

// A gap is -7 to 7.
#[tactic(auto, unfolding(model_text::specs::Drafts::is_gap, model_sheet::specs::Row::between))]
fn is_gap(x: i128) -> bool
    ensures { result ≡ is_gap x }
{
    (-7..=7).contains(&x)
}

/// Returns whether both gaps are -7 to 7.
pub fn in_range(q: Gap) -> bool
    ensures { result ≡ is_gap q.least && is_gap q.greatest }
{
    is_gap(q.least) && is_gap(q.greatest)
}

/// Returns whether the least gap is not above the greatest.
pub fn is_ordered(q: Gap) -> bool
    ensures { result ≡ le_z q.least q.greatest }
{
    q.least <= q.greatest
}

// A gap of -7 to 7 as a signed byte.
fn gap_byte(x: i128) -> u8
    requires { is_gap x ≡ true }
    ensures { result ≡ gap_byte x }
{
    (x as i8).cast_unsigned()
}

/// Returns the record of a gap statement. Both agents must be below 256, both gaps -7 to 7. Equals
/// `gap_record` of model_text/specs/Drafts.antt.
pub fn gap_row(q: Gap) -> Row
    requires { (q.a < 256) × (q.b < 256) × (is_gap q.least ≡ true) × (is_gap q.greatest ≡ true) }
    ensures { row_of result ≡ gap_record q.a q.b q.least q.greatest }
{
    Row {
        lower: q.a as u8,
        higher: q.b as u8,
        low: gap_byte(q.least),
        high: gap_byte(q.greatest),
    }
}
