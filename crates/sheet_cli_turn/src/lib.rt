//! The program `turn`, as a function of its command line, its input and its outputs: turns a sheet
//! into one of the other edition. It stands on `sheet_editions` and `support_cli`, and answers as
//! `turn_answer` of specs/Answers.antt says. Start at [`turn`]. docs/PROGRAMS.md, 'turn'.
#![tactic(auto)]

ghost use Rattle.std.specs.Prelude.{◌≡◌, suc, map, vec_items};
ghost use Rattle.model_sheet.specs.Sheet.{longest_sheet};
ghost use Rattle.support_buffer.specs.Abstract.{written_of, InBuffer};
ghost use Rattle.model_editions.specs.Turning.{put_turned};
ghost use Rattle.support_cli.specs.Streams.{input_of, output_of};
ghost use Rattle.support_cli.specs.Answers.{status_code};
ghost use Rattle.support_cli.specs.Behaving.{Behaves};
ghost use Rattle.sheet_cli_turn.specs.Answers.{command_in, turn_by, turned, bytes_taken, turn_answer};

use sheet_editions::{to_bans, to_gaps};
use std::io::{Read, Write};
use support_cli::{Input, Output, Status, complain, first_word, hand_over};
use support_rejection::Rejection;

// Which sheet to write: a ban sheet, or a gap sheet.
#[derive(Clone, Copy)]
enum Command {
    Bans,
    Gaps,
}

#[tactic(auto, unfolding(crate::specs::Answers::command_in))]
fn command_of(word: &[u8]) -> Option<Command>
    ensures { result ≡ command_in word.now }
{
    if word == b"bans".as_slice() {
        Some(Command::Bans)
    } else if word == b"gaps".as_slice() {
        Some(Command::Gaps)
    } else {
        None
    }
}

// Writes the sheet of the other edition into a lent buffer.
#[tactic(auto, unfolding(model_editions::specs::Turning::to_bans, model_editions::specs::Turning::to_gaps))]
fn turn_sheet(command: Command, given: &[u8], sheet: &mut [u8]) -> Result<usize, Rejection>
    ensures out_after { written_of result sheet.new ≡ put_turned (turn_by command given.now) sheet.old }
    ensures length_in_bounds { InBuffer result sheet.new }
{
    match command {
        Command::Bans => to_bans(given, sheet),
        Command::Gaps => to_gaps(given, sheet),
    }
}

// The longest sheet has 33,816 bytes; one byte more tells that the input is too long.
fn obey<R: Read, W: Write, E: Write>(
    command: Command,
    given: &mut [u8; 33817],
    sheet: &mut [u8; 33816],
    input: &mut Input<R>,
    output: &mut Output<W>,
    errors: &mut Output<E>,
) -> Status
    ensures { Behaves (suc longest_sheet) (λ s. turned (turn_by command s)) (input_of R.remaining input.old) (input_of R.remaining input.new) (output_of W.contents output.old) (output_of W.contents output.new) (output_of E.contents errors.old) (output_of E.contents errors.new) (status_code result) }
{
    let count = input.read_full(given);
    let length = turn_sheet(command, &given[..count], sheet);
    hand_over(output, errors, length, sheet)
}

/// Runs `turn bans` or `turn gaps`: reads a sheet on `input` and writes its ban sheet or gap sheet
/// on `output`, or one line on `errors` that says why there is none, and returns the exit status.
/// It reads at most 33,817 bytes, and nothing where the command line is not understood. The answer
/// is `turn_answer` of specs/Answers.antt.
pub fn turn<R: Read, W: Write, E: Write>(
    words: &[Vec<u8>],
    input: &mut Input<R>,
    output: &mut Output<W>,
    errors: &mut Output<E>,
) -> Status
    ensures { Behaves (bytes_taken (map vec_items words.now)) (turn_answer (map vec_items words.now)) (input_of R.remaining input.old) (input_of R.remaining input.new) (output_of W.contents output.old) (output_of W.contents output.new) (output_of E.contents errors.old) (output_of E.contents errors.new) (status_code result) }
{
    let Some((word, others)) = first_word(words) else {
        let missing = b"no command given: turn bans, or turn gaps";
        return complain(output, errors, missing, b"", Status::NotUnderstood);
    };
    let Some(command) = command_of(word) else {
        let unread = b"command not understood: ";
        return complain(output, errors, unread, word, Status::NotUnderstood);
    };
    if let Some((surplus, _)) = first_word(others) {
        let surplus_is = b"argument not understood: ";
        return complain(output, errors, surplus_is, surplus, Status::NotUnderstood);
    }
    let (mut given, mut sheet) = ([0u8; 33817], [0u8; 33816]);
    obey(command, &mut given, &mut sheet, input, output, errors)
}
