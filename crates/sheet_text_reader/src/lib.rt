//! Reads a sheet written as text: line after line into a draft (`sheet_text_drafts`), and the draft
//! into a sheet (`sheet_writer`). The definition is `sheet_of` of model_text/specs/Reading.antt.
//! Start at [`read_sheet`], then lines.rt. docs/FORMATS.md, 'Sheets as text'.
#![tactic(auto)]

ghost use Rattle.std.specs.Prelude.{◌≡◌, ◌≤◌, cond, eqb, length, take};
ghost use Rattle.model_base.specs.Lent.{put};
ghost use Rattle.support_buffer.specs.Abstract.{written_of};
ghost use Rattle.model_text.specs.Reading.{longest_text, sheet_from, sheet_of};
ghost use Rattle.sheet_text_drafts.specs.Kinds.{edition_in};
ghost use Rattle.sheet_text_drafts.specs.Drafting.{draft_in};
ghost use Rattle.sheet_text_reader.specs.Walking.{due, read_of};

mod lines;
pub mod unread;

pub use lines::RejectedLine;
use lines::read_lines;
use sheet_text_drafts::Draft;
use sheet_writer::{Edition, put_sheet};
use support_rejection::Rejection;
pub use unread::TextRejection;

// The longest text that is read whole.
const LONGEST: usize = 1048576;

// A text with gaps gives edition 2, any other edition 1.
fn edition_of(edition: Option<Edition>) -> u8
    ensures { result ≡ cond (eqb (edition_in edition) 2) 2 1 }
{
    edition.unwrap_or(Edition::Bans).number()
}

// Writes the sheet of a draft, where there is room.
fn put_draft(out: &mut [u8], draft: &Draft) -> Result<usize, Rejection>
    ensures { written_of result out.new ≡ put (sheet_from (draft_in draft.now)) out.old }
{
    put_sheet(
        out,
        edition_of(draft.edition),
        draft.problem,
        draft.rows.as_slice(),
    )
}

// Returns what is read of a text: its first 1,048,576 bytes, or all of it where it has fewer.
fn front(text: &[u8]) -> &[u8]
    ensures { (result.now ≡ take longest_text text.now) × (length result.now ≤ 1048576) }
{
    &text[..text.len().min(LONGEST)]
}

/// Reads a text, writes its sheet into the lent buffer and returns the sheet's length. Bytes past
/// it stay. Equals `sheet_of` of model_text/specs/Reading.antt by `due` of specs/Walking.antt.
///
/// # Errors
/// [`TextRejection::RejectedLine`] with the first faulty line, or with the line behind the last for
/// a text with no statement. Of a text of more than 1,048,576 bytes only the lines that end within
/// those are judged; if none is faulty, the fault is `LongText` at the next line. Then
/// [`TextRejection::Refused`] with `ShortBuffer` where the buffer is shorter than the sheet. The
/// buffer is untouched in both.
pub fn read_sheet(text: &[u8], out: &mut [u8]) -> Result<usize, TextRejection>
    ensures { read_of result out.new ≡ due (sheet_of text.now) out.old }
{
    let mut draft = Draft::new();
    read_lines(&mut draft, front(text), LONGEST < text.len())?;
    let length = put_draft(out, &draft)?;
    Ok(length)
}
