//! Turns a sheet of one edition into the sheet of the other edition that says the same bans, in a
//! lent buffer. `sheet_reader` reads the one and `sheet_writer` writes the other; pairs.rt says
//! what the table holds of two agents, rows.rt lists their records. Values are 1 to 8, and the gaps
//! from -7 to 7 are counted as places 0 to 14. Start at [`to_bans`] and [`to_gaps`]; the
//! definitions stand in model_editions/specs.
//! docs/FORMATS.md, 'Turning one edition into the other'.
#![tactic(auto)]

ghost use Rattle.std.specs.Prelude.{◌≡◌};
ghost use Rattle.sheet_reader.specs.Abstract.{outcome, outcome_of};
ghost use Rattle.support_buffer.specs.Abstract.{written_of, InBuffer};
ghost use Rattle.model_editions.specs.Turning.{decode_as, to_bans, to_gaps};
ghost use Rattle.sheet_writer.specs.Editions.{number_of};

mod accepted;
mod bits;
mod gaps;
mod pair;
mod pairs;
mod records;
mod rows;
mod sayable;

use accepted::Accepted;
use sheet_reader::{Problem, decode};
use sheet_writer::Edition;
use support_rejection::Rejection;

// Reads a sheet of this edition; a sheet of another one is rejected as `BadHeader`.
fn decode_as(edition: Edition, s: &[u8]) -> Result<Problem, Rejection>
    ensures { outcome_of result ≡ outcome (decode_as (number_of edition) s.now) }
{
    if s.len() < 24 {
        Err(Rejection::BadLength)
    } else if s[1] != edition.number() {
        Err(Rejection::BadHeader)
    } else {
        decode(s)
    }
}

/// Writes the ban sheet of `s`, a sheet of edition 2, and returns its length: one record of
/// edition 1 for each banned pair of values. Bytes past it stay. Equals `to_bans` of
/// model_editions/specs/Turning.antt.
///
/// # Errors
/// Those of `sheet_reader::decode`, where a sheet of another edition is a `BadHeader`; then
/// `ShortBuffer` where the buffer is shorter than the ban sheet. The buffer is untouched in all of
/// them.
pub fn to_bans(s: &[u8], out: &mut [u8]) -> Result<usize, Rejection>
    ensures out_after { written_of result out.new ≡ to_bans s.now out.old }
    ensures length_in_bounds { InBuffer result out.new }
{
    let p = Accepted {
        problem: decode_as(Edition::Gaps, s)?,
    };
    p.put_sheet(out, Edition::Bans)
}

/// Writes the gap sheet of `s`, a sheet of edition 1, and returns its length: for each two agents
/// one record of edition 2 for each unbroken run of banned gaps. Bytes past it stay. Equals
/// `to_gaps` of model_editions/specs/Turning.antt.
///
/// # Errors
/// Those of `sheet_reader::decode`, where a sheet of another edition is a `BadHeader`; then
/// `NotSayable` where two agents have a gap both of a banned pair and of a free one; then
/// `ShortBuffer` where the buffer is shorter than the gap sheet. The buffer is untouched in all of
/// them.
pub fn to_gaps(s: &[u8], out: &mut [u8]) -> Result<usize, Rejection>
    ensures out_after { written_of result out.new ≡ to_gaps s.now out.old }
    ensures length_in_bounds { InBuffer result out.new }
{
    let p = Accepted {
        problem: decode_as(Edition::Bans, s)?,
    };
    if !p.is_sayable() {
        return Err(Rejection::NotSayable);
    }
    p.put_sheet(out, Edition::Gaps)
}
