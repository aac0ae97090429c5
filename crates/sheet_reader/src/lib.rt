//! Reads a sheet of either edition: from its bytes to a [`Problem`], or to the rejection of its
//! first fault. The parts of a sheet are those of `sheet_records`, and the definition is `decode`
//! of model_sheet/specs/Sheet.antt. Start at [`decode`], then walk.rt.
//! docs/FORMATS.md, 'The sheet'.
#![tactic(auto)]

ghost use Rattle.std.specs.Prelude.{◌≡◌};
ghost use Rattle.model_sheet.specs.Sheet.{decode};
ghost use Rattle.sheet_reader.specs.Abstract.{outcome, outcome_of};

mod walk;

use sheet_records::Sheet;
use sheet_records::header::two_bytes;
use support_rejection::Rejection;
use walk::walk;

/// A problem: n agents, their domains, and the bans between their values. The arrays have room for
/// twelve agents. Stands for `Problem` of model_sheet/specs/Problem.antt, field by field.
#[derive(Clone, Copy, Debug, PartialEq, Eq)]
pub struct Problem {
    /// n: 1 to 12 in a problem that [`decode`] returns.
    pub count: u8,
    /// The domain size of each agent, 1 to 8; zero beyond n.
    pub domains: [u8; 12],
    /// A word for each two agents, at the place that `sheet_records::index::word_at` gives. The
    /// lower agent's value v is banned with the higher's value w where bit 8 * (v - 1) + w - 1
    /// is 1.
    pub bans: [u64; 66],
}

/// Reads a sheet of either edition as a problem. Equals `decode` of model_sheet/specs/Sheet.antt.
///
/// # Errors
/// The first fault decides: `BadLength` for fewer than 24 bytes, `BadHeader`, `BadLength` for a
/// length other than 24 + 8m; then, along the chain, `BadRecord` for a bad record, and `Cycle`
/// where the chain comes back to a record.
pub fn decode(s: &[u8]) -> Result<Problem, Rejection>
    ensures { outcome_of result ≡ outcome (decode s.now) }
{
    if s.len() < 24 {
        return Err(Rejection::BadLength);
    }
    let sheet = Sheet { bytes: s };
    if !sheet.header_good() {
        Err(Rejection::BadHeader)
    } else if s.len() != 24 + 8 * two_bytes(s, 4) {
        Err(Rejection::BadLength)
    } else {
        walk(&sheet)
    }
}
