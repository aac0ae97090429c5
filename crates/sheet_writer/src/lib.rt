//! Writes a sheet into a lent buffer. A caller lists the sheet's records in [`Rows`] and hands the
//! list to [`put_sheet`]. Records and problems are those of `sheet_records` and `sheet_reader`, and
//! the definition is `written` of model_sheet/specs/Writing.antt. Start at [`put_sheet`].
//! docs/FORMATS.md, 'The sheet'.
#![tactic(auto)]

ghost use Rattle.std.specs.Prelude.{◌≡◌, ◌≤◌, length};
ghost use Rattle.model_base.specs.Lent.{put};
ghost use Rattle.model_sheet.specs.Writing.{written};
ghost use Rattle.sheet_reader.specs.Abstract.{problem_of};
ghost use Rattle.support_buffer.specs.Abstract.{written_of};
ghost use Rattle.sheet_writer.specs.Rows.{rows_of};

pub mod edition;
pub mod rows;
mod writing;

pub use edition::Edition;
pub use rows::Rows;
use sheet_reader::Problem;
pub use sheet_records::Row;
use support_rejection::Rejection;
use writing::{put_header, put_records};

/// Writes the sheet of this edition with `p`'s n and domains and these rows, chained in their
/// order, and returns its length, 24 + 8 for each row. Bytes past it stay. At most 4,224 rows. The
/// rows alone say the bans; those of `p` are not looked at. The edition's byte is written as given,
/// and a reader accepts 1 and 2 only. Equals `put` (model_base/specs/Lent.antt) of `written`
/// (model_sheet/specs/Writing.antt).
///
/// # Errors
/// `ShortBuffer` where the buffer is shorter than the sheet; the buffer is untouched then.
pub fn put_sheet(out: &mut [u8], edition: u8, p: Problem, rows: &[Row]) -> Result<usize, Rejection>
    requires { length rows.now ≤ 4224 }
    ensures { written_of result out.new
        ≡ put (written edition (problem_of p) (rows_of rows.now)) out.old }
{
    let length = 24 + 8 * rows.len();
    if out.len() < length {
        return Err(Rejection::ShortBuffer);
    }
    put_header(out, edition, p, rows.len());
    put_records(out, rows);
    Ok(length)
}
