//! `dock`, as a function of its input and its outputs: the agents settle the sheet on the input,
//! and what they come to is printed. It takes no notice of its command line. docs/PROGRAMS.md,
//! 'dock'. Stands on `abt_dock_text` (the text) and `support_cli` (input, outputs and statuses).
//! Start reading at `dock`; specs/Answers.antt says what it answers.
#![tactic(auto)]

ghost use Rattle.std.specs.Prelude.{◌≡◌, suc};
ghost use Rattle.model_sheet.specs.Sheet.{longest_sheet};
ghost use Rattle.support_cli.specs.Streams.{input_of, output_of};
ghost use Rattle.support_cli.specs.Answers.{status_code};
ghost use Rattle.support_cli.specs.Behaving.{Behaves};
ghost use Rattle.abt_cli_dock.specs.Answers.{status_told, dock_answer};

use abt_dock_text::program_text;
use std::io::{Read, Write};
use support_cli::{Input, Output, Status, print};

// The status, by the text: that of a rejected sheet says so.
#[tactic(auto, unfolding(abt_dock_text::specs::Text::sheet_refused, crate::specs::Answers::status_told))]
fn status_of(text: &[u8]) -> Status
    ensures { status_code result ≡ status_told text.now }
{
    if text.starts_with(b"sheet refused ") {
        Status::Refused
    } else {
        Status::Done
    }
}

// What the sheet on the input comes to.
fn settle_into<R: Read, W: Write, E: Write>(
    sheet: &mut [u8; 33817],
    text: &mut [u8; 1024],
    input: &mut Input<R>,
    output: &mut Output<W>,
    errors: &mut Output<E>,
) -> Status
    ensures { Behaves (suc longest_sheet) dock_answer (input_of R.remaining input.old) (input_of R.remaining input.new) (output_of W.contents output.old) (output_of W.contents output.new) (output_of E.contents errors.old) (output_of E.contents errors.new) (status_code result) }
{
    let count = input.read_full(sheet);
    let length = program_text(&sheet[..count], text);
    let told = &text[..length];
    print(output, errors, told, status_of(told))
}

/// Settles the sheet on the input with 100,000 rounds, and prints what it comes to on standard
/// output. At most 33,817 bytes are read: the longest sheet has 33,816, and one more tells that the
/// input is too long.
///
/// The status is 0 where the run ends, whatever its word, 1 where the sheet is rejected, and 3
/// where standard output cannot be written. Equals `dock_answer` of specs/Answers.antt.
pub fn dock<R: Read, W: Write, E: Write>(
    input: &mut Input<R>,
    output: &mut Output<W>,
    errors: &mut Output<E>,
) -> Status
    ensures { Behaves (suc longest_sheet) dock_answer (input_of R.remaining input.old) (input_of R.remaining input.new) (output_of W.contents output.old) (output_of W.contents output.new) (output_of E.contents errors.old) (output_of E.contents errors.new) (status_code result) }
{
    let (mut sheet, mut text) = ([0u8; 33817], [0u8; 1024]);
    settle_into(&mut sheet, &mut text, input, output, errors)
}
