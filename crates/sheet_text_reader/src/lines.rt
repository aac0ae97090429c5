// Line after line.
ghost use Rattle.std.specs.Prelude.{◌≡◌, [], ◌∷◌, ◌<◌, ◌≤◌, length, MatchOption};
ghost use Rattle.model_text.specs.Drafts.{with_line};
ghost use Rattle.model_text.specs.Reading.{read_from};
ghost use Rattle.sheet_text_drafts.specs.Drafting.{draft_in, taken_of};
ghost use Rattle.sheet_text_reader.specs.Walking.{lines_in, outcome_of};

use sheet_text_drafts::{Draft, LineRejection};
use sheet_text_statements::bytes::find;
use sheet_text_statements::parts::{next_word, without_comment};

/// A faulty line: its number, from 1 on, and its fault.
#[derive(Clone, Copy, Debug, PartialEq, Eq)]
pub struct RejectedLine {
    pub line: u64,
    pub fault: LineRejection,
}

// Returns the first line of the text and what stands behind it, if there is a line. Where the text
// is cut, a last part without a newline is no line.
fn next_line(text: &[u8], cut: bool) -> Option<(&[u8], &[u8])>
    ensures { MatchOption result (lines_in cut text.now ≡ [])
        (λ r. (lines_in cut text.now ≡ r.0.now ∷ lines_in cut r.1.now) × (length r.1.now < length text.now)) }
{
    match find(text, b'\n') {
        Some(end) => Some((&text[..end], &text[end + 1..])),
        None if cut || text.is_empty() => None,
        None => Some(text.split_at(text.len())),
    }
}

// Takes what the line says into the draft.
fn with_line(draft: &mut Draft, line: &[u8]) -> Result<(), LineRejection>
    ensures { taken_of result draft.new ≡ with_line (draft_in draft.old) line.now }
{
    let Some((word, args)) = next_word(without_comment(line)) else {
        return Ok(());
    };
    if word == b"slots".as_slice() {
        draft.set_slots(args)
    } else if word == b"ban".as_slice() {
        draft.add_ban(args)
    } else if word == b"gap".as_slice() {
        draft.add_gap(args)
    } else {
        Err(LineRejection::NotStatement)
    }
}

/// Takes all lines of the text into the draft, up to the first that is faulty. `cut` says that the
/// text goes on behind these bytes, of which there are at most 1,048,576: a part behind the last
/// newline is no line then. If no line is faulty, a cut text has the fault `LongText`, and one with
/// no statement `SlotsFirst`, at the number that one line more would have. Equals `read_from` of
/// model_text/specs/Reading.antt.
pub fn read_lines(draft: &mut Draft, text: &[u8], cut: bool) -> Result<(), RejectedLine>
    requires { length text.now ≤ 1048576 }
    ensures { outcome_of result draft.new ≡ read_from cut 1 (draft_in draft.old) text.now }
{
    let mut line: u64 = 1;
    let mut rest = text;
    while let Some((this, behind)) = next_line(rest, cut) {
        if let Err(fault) = with_line(draft, this) {
            return Err(RejectedLine { line, fault });
        }
        rest = behind;
        line += 1;
    }
    if cut {
        Err(RejectedLine {
            line,
            fault: LineRejection::LongText,
        })
    } else if draft.has_slots() {
        Ok(())
    } else {
        Err(RejectedLine {
            line,
            fault: LineRejection::SlotsFirst,
        })
    }
}
