//! The little sheets: every sheet of edition 1 for one to three agents with one or two values each,
//! 4,996 in all. Writes one, by its ordinal, into a lent buffer: choice.rt finds its domains and
//! its set of bans, rows.rt its records, and `sheet_writer` writes them. The definition is
//! `put_little` of model_little/specs/Putting.antt. Start at [`little`].
//! docs/PROGRAMS.md, 'All the little sheets'.
#![tactic(auto)]

ghost use Rattle.std.specs.Prelude.{◌≡◌};
ghost use Rattle.model_little.specs.Putting.{put_little};
ghost use Rattle.support_buffer.specs.Abstract.{written_of, InBuffer};

mod choice;
mod rows;

use choice::{Choice, choice_at, without_bans};
use rows::bans_of;
use sheet_writer::put_sheet;
use support_rejection::Rejection;

/// Writes the little sheet of this ordinal, 0 to 4,995, and returns its length, at most 120. Bytes
/// past it stay. Equals `put_little` of model_little/specs/Putting.antt.
///
/// # Errors
/// `BadOrdinal` for an ordinal above 4,995, then `ShortBuffer` where the buffer is shorter than the
/// sheet. The buffer is untouched in both.
pub fn little(ordinal: u64, out: &mut [u8]) -> Result<usize, Rejection>
    ensures out_after { written_of result out.new ≡ put_little ordinal out.old }
    ensures length_in_bounds { InBuffer result out.new }
{
    let Some(Choice { counts, bans }) = choice_at(ordinal) else {
        return Err(Rejection::BadOrdinal);
    };
    let rows = bans_of(counts, bans);
    put_sheet(out, 1, without_bans(counts), rows.as_slice())
}
