//! Writes the text of a sheet into a lent buffer. `sheet_reader` judges the sheet, `sheet_records`
//! reads its records, and the text is defined in model_text/specs/Telling.antt. Start at
//! [`write_text`], then parts.rt and lines.rt. docs/FORMATS.md, 'Sheets as text'.
#![tactic(auto)]

ghost use Rattle.std.specs.Prelude.{◌≡◌, ◌+◌, ◌≤◌, length};
ghost use Rattle.model_base.specs.Lent.{put};
ghost use Rattle.model_sheet.specs.Sheet.{Valid, edition_in, decode};
ghost use Rattle.model_sheet.specs.Chain.{rows_in};
ghost use Rattle.sheet_reader.specs.Abstract.{problem_of};
ghost use Rattle.model_base.specs.Decimal.{Appends};
ghost use Rattle.support_buffer.specs.Abstract.{written_of};
ghost use Rattle.model_text.specs.Telling.{text_from, text_of};
ghost use Rattle.sheet_text_writer.specs.Parts.{put_told};

mod lines;
mod parts;

use parts::{append_rows, append_slots};
use sheet_reader::{Problem, decode};
use support_buffer::cursor::Cursor;
use support_rejection::Rejection;

// Writes the text of a sheet that reads as p to the buffer's start, and returns its length.
fn append_text(out: &mut [u8], s: &[u8], p: Problem) -> usize
    requires { (decode s.now ≡ Valid (problem_of p))
        × (length (text_from (edition_in s.now) (problem_of p) (rows_in s.now)) + 20 ≤ length out.old) }
    ensures { Appends out.old 0 (text_from (edition_in s.now) (problem_of p) (rows_in s.now)) out.new result }
{
    let mut next = Cursor { buffer: out, at: 0 };
    append_slots(&mut next, p);
    append_rows(&mut next, s);
    next.at
}

// Writes all of s where there is room; else `ShortBuffer`, and the buffer is untouched.
fn put_whole(out: &mut [u8], s: &[u8]) -> Result<usize, Rejection>
    ensures { written_of result out.new ≡ put s.now out.old }
{
    if out.len() < s.len() {
        return Err(Rejection::ShortBuffer);
    }
    out[..s.len()].copy_from_slice(s);
    Ok(s.len())
}

/// Writes the text of the sheet `s`, at most 67,614 bytes, and returns its length. Bytes past it
/// stay. Equals `text_of` of model_text/specs/Telling.antt by `put_told` of specs/Parts.antt.
///
/// # Errors
/// Those of `sheet_reader::decode`, then `ShortBuffer` where the buffer is shorter than the text.
/// The buffer is untouched in all of them.
pub fn write_text(s: &[u8], out: &mut [u8]) -> Result<usize, Rejection>
    ensures { written_of result out.new ≡ put_told (text_of s.now) out.old }
{
    let p = decode(s)?;
    // Appending a number asks for room for twenty digits, so the array has twenty bytes to spare.
    let mut text = [0u8; 67634];
    let n = append_text(&mut text, s, p);
    put_whole(out, &text[..n])
}
