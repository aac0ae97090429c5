// The walk along the chain of records.
ghost use Rattle.std.specs.Prelude.{◌≡◌};
ghost use Rattle.model_sheet.specs.Sheet.{decode};
ghost use Rattle.sheet_reader.specs.Abstract.{outcome, outcome_of, Framed};

use crate::Problem;
use sheet_records::Sheet;
use sheet_records::header::two_bytes;
use support_rejection::Rejection;

/// Walks the chain from the first record on and gathers the bans. The header must be good, and the
/// length the one that it states. The errors are `BadRecord` and `Cycle`. No record is marked as
/// met: a walk of more than m records has come back to one, so m + 1 turns find every return.
pub fn walk(sheet: &Sheet) -> Result<Problem, Rejection>
    requires { Framed sheet.now.bytes.now }
    ensures { outcome_of result ≡ outcome (decode sheet.now.bytes.now) }
{
    let s = sheet.bytes;
    let records = two_bytes(s, 4);
    let mut bans = [0u64; 66];
    let mut r = two_bytes(s, 2);
    for _ in 0..=records {
        if r == 0 {
            return Ok(Problem {
                count: s[0],
                domains: sheet.domains(),
                bans,
            });
        }
        if !sheet.record_good(r) {
            return Err(Rejection::BadRecord);
        }
        sheet.add_record(&mut bans, r);
        r = two_bytes(s, 20 + 8 * r);
    }
    Err(Rejection::Cycle)
}
