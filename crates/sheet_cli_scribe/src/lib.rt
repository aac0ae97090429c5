//! The program `scribe`, as a function of its command line, its input and its outputs: writes the
//! sheet of a text, or the text of a sheet. It stands on `sheet_text_reader`, `sheet_text_writer`,
//! `sheet_text_messages` and `support_cli`, and answers as `scribe_answer` of specs/Answers.antt
//! says. Start at [`scribe`]. docs/PROGRAMS.md, 'scribe'.
#![tactic(auto)]

ghost use Rattle.std.specs.Prelude.{◌≡◌, suc, length, map, vec_items};
ghost use Rattle.model_sheet.specs.Sheet.{longest_sheet};
ghost use Rattle.model_text.specs.Reading.{longest_text};
ghost use Rattle.model_text.specs.Faults.{rejection_text};
ghost use Rattle.sheet_text_drafts.specs.Faults.{fault_of};
ghost use Rattle.sheet_text_reader.specs.Walking.{read_of};
ghost use Rattle.support_cli.specs.Streams.{input_of, output_of};
ghost use Rattle.support_cli.specs.Answers.{status_code, refused, tells, Answered};
ghost use Rattle.support_cli.specs.Behaving.{Behaves};
ghost use Rattle.sheet_cli_scribe.specs.Answers.{command_in, sheet_answer, text_answer, bytes_taken, scribe_answer};
ghost use Rattle.sheet_cli_scribe.specs.Reading.{read_answer};

use sheet_text_messages::rejection_text;
use sheet_text_reader::{RejectedLine, TextRejection, read_sheet};
use sheet_text_writer::write_text;
use std::io::{Read, Write};
use support_cli::{Input, Output, Status, complain, first_word, hand_over, tell};

// What to write: the sheet of a text, or the text of a sheet.
#[derive(Clone, Copy)]
enum Command {
    Sheet,
    Text,
}

#[tactic(auto, unfolding(crate::specs::Answers::command_in))]
fn command_of(word: &[u8]) -> Option<Command>
    ensures { result ≡ command_in word.now }
{
    if word == b"sheet".as_slice() {
        Some(Command::Sheet)
    } else if word == b"text".as_slice() {
        Some(Command::Text)
    } else {
        None
    }
}

// ---- the sheet of a text

// Answers with the line that says what is wrong, and where.
fn tell_fault<W: Write, E: Write>(
    faulty: RejectedLine,
    output: &mut Output<W>,
    errors: &mut Output<E>,
) -> Status
    ensures { Answered (tells (rejection_text faulty.line (fault_of faulty.fault)) refused) (output_of W.contents output.old) (output_of W.contents output.new) (output_of E.contents errors.old) (output_of E.contents errors.new) (status_code result) }
{
    let mut text = [0u8; 89];
    let length = rejection_text(faulty.line, faulty.fault, &mut text);
    tell(output, errors, &text[..length], Status::Refused)
}

// Answers with the reason that a text gives no sheet.
fn answer_unread<W: Write, E: Write>(
    unread: TextRejection,
    sheet: &[u8],
    output: &mut Output<W>,
    errors: &mut Output<E>,
) -> Status
    ensures { Answered (read_answer (read_of (Err unread) sheet.now)) (output_of W.contents output.old) (output_of W.contents output.new) (output_of E.contents errors.old) (output_of E.contents errors.new) (status_code result) }
{
    match unread {
        TextRejection::Refused(rejection) => hand_over(output, errors, Err(rejection), sheet),
        TextRejection::RejectedLine(faulty) => tell_fault(faulty, output, errors),
    }
}

// Answers with the sheet of a text, or with its fault.
fn answer_sheet<W: Write, E: Write>(
    read: Result<usize, TextRejection>,
    sheet: &[u8],
    output: &mut Output<W>,
    errors: &mut Output<E>,
) -> Status
    ensures { Answered (read_answer (read_of read sheet.now)) (output_of W.contents output.old) (output_of W.contents output.new) (output_of E.contents errors.old) (output_of E.contents errors.new) (status_code result) }
{
    match read {
        Ok(length) => hand_over(output, errors, Ok(length), sheet),
        Err(unread) => answer_unread(unread, sheet, output, errors),
    }
}

// The longest text has 1,048,576 bytes; one byte more tells that the input is too long. The longest
// sheet has 33,816.
fn write_sheet<R: Read, W: Write, E: Write>(
    given: &mut [u8; 1048577],
    sheet: &mut [u8; 33816],
    input: &mut Input<R>,
    output: &mut Output<W>,
    errors: &mut Output<E>,
) -> Status
    ensures { Behaves (suc longest_text) sheet_answer (input_of R.remaining input.old) (input_of R.remaining input.new) (output_of W.contents output.old) (output_of W.contents output.new) (output_of E.contents errors.old) (output_of E.contents errors.new) (status_code result) }
{
    let count = input.read_full(given);
    let read = read_sheet(&given[..count], sheet);
    answer_sheet(read, sheet, output, errors)
}

// ---- the text of a sheet

// The longest sheet has 33,816 bytes; one byte more tells that the input is too long. The longest
// text of a sheet has 67,614.
fn write_told<R: Read, W: Write, E: Write>(
    given: &mut [u8; 33817],
    text: &mut [u8; 67614],
    input: &mut Input<R>,
    output: &mut Output<W>,
    errors: &mut Output<E>,
) -> Status
    ensures { Behaves (suc longest_sheet) text_answer (input_of R.remaining input.old) (input_of R.remaining input.new) (output_of W.contents output.old) (output_of W.contents output.new) (output_of E.contents errors.old) (output_of E.contents errors.new) (status_code result) }
{
    let count = input.read_full(given);
    let length = write_text(&given[..count], text);
    hand_over(output, errors, length, text)
}

// ---- the room that each command takes

// Room for the longest text, and one byte more.
fn room() -> [u8; 1048577]
    ensures { 1048577 ≡ length result }
{
    [0; 1048577]
}

// Each command's room is made here, and not where the command is chosen: there the room of both
// would be cleared, whichever it is.
fn sheet_of_input<R: Read, W: Write, E: Write>(
    input: &mut Input<R>,
    output: &mut Output<W>,
    errors: &mut Output<E>,
) -> Status
    ensures { Behaves (suc longest_text) sheet_answer (input_of R.remaining input.old) (input_of R.remaining input.new) (output_of W.contents output.old) (output_of W.contents output.new) (output_of E.contents errors.old) (output_of E.contents errors.new) (status_code result) }
{
    write_sheet(&mut room(), &mut [0; 33816], input, output, errors)
}

fn text_of_input<R: Read, W: Write, E: Write>(
    input: &mut Input<R>,
    output: &mut Output<W>,
    errors: &mut Output<E>,
) -> Status
    ensures { Behaves (suc longest_sheet) text_answer (input_of R.remaining input.old) (input_of R.remaining input.new) (output_of W.contents output.old) (output_of W.contents output.new) (output_of E.contents errors.old) (output_of E.contents errors.new) (status_code result) }
{
    write_told(&mut [0; 33817], &mut [0; 67614], input, output, errors)
}

// ---- the command line

/// Runs `scribe sheet` or `scribe text`: reads a text on `input` and writes its sheet on `output`,
/// or the other way round, or writes one line on `errors` that says why there is none; returns the
/// exit status. It reads at most 1,048,577 bytes of a text and 33,817 of a sheet, and nothing where
/// the command line is not understood. The answer is `scribe_answer` of specs/Answers.antt.
pub fn scribe<R: Read, W: Write, E: Write>(
    words: &[Vec<u8>],
    input: &mut Input<R>,
    output: &mut Output<W>,
    errors: &mut Output<E>,
) -> Status
    ensures { Behaves (bytes_taken (map vec_items words.now)) (scribe_answer (map vec_items words.now)) (input_of R.remaining input.old) (input_of R.remaining input.new) (output_of W.contents output.old) (output_of W.contents output.new) (output_of E.contents errors.old) (output_of E.contents errors.new) (status_code result) }
{
    let Some((word, others)) = first_word(words) else {
        let missing = b"no command given: scribe sheet, or scribe text";
        return complain(output, errors, missing, b"", Status::NotUnderstood);
    };
    let Some(command) = command_of(word) else {
        let unread = b"command not understood: ";
        return complain(output, errors, unread, word, Status::NotUnderstood);
    };
    if let Some((surplus, _)) = first_word(others) {
        let surplus_is = b"argument not understood: ";
        return complain(output, errors, surplus_is, surplus, Status::NotUnderstood);
    }
    match command {
        Command::Sheet => sheet_of_input(input, output, errors),
        Command::Text => text_of_input(input, output, errors),
    }
}
