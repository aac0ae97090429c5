//! The program `little`, as a function of its command line and its outputs: writes one of the
//! little sheets, by its ordinal. It stands on `sheet_little` and `support_cli`, and answers as
//! `little_answer` of specs/Answers.antt says. Start at [`little`].
//! docs/PROGRAMS.md, 'All the little sheets'.
#![tactic(auto)]

ghost use Rattle.std.specs.Prelude.{map, vec_items};
ghost use Rattle.support_cli.specs.Streams.{output_of};
ghost use Rattle.support_cli.specs.Answers.{status_code, Answered};
ghost use Rattle.sheet_cli_little.specs.Answers.{sheet_answer, little_answer};

use std::io::Write;
use support_buffer::read_number;
use support_cli::{Output, Status, complain, first_word, hand_over};

// Writes the sheet of an ordinal. The longest of them has 120 bytes.
fn put_little<W: Write, E: Write>(
    ordinal: u64,
    sheet: &mut [u8; 120],
    output: &mut Output<W>,
    errors: &mut Output<E>,
) -> Status
    ensures { Answered (sheet_answer ordinal) (output_of W.contents output.old) (output_of W.contents output.new) (output_of E.contents errors.old) (output_of E.contents errors.new) (status_code result) }
{
    let length = sheet_little::little(ordinal, sheet);
    hand_over(output, errors, length, sheet)
}

/// Runs `little N`: writes the sheet of that ordinal on `output`, or one line on `errors` that says
/// why there is none, and returns the exit status. The answer is `little_answer` of
/// specs/Answers.antt.
pub fn little<W: Write, E: Write>(
    words: &[Vec<u8>],
    output: &mut Output<W>,
    errors: &mut Output<E>,
) -> Status
    ensures { Answered (little_answer (map vec_items words.now)) (output_of W.contents output.old) (output_of W.contents output.new) (output_of E.contents errors.old) (output_of E.contents errors.new) (status_code result) }
{
    let Some((word, others)) = first_word(words) else {
        let missing = b"no number given: little N";
        return complain(output, errors, missing, b"", Status::NotUnderstood);
    };
    let Some(ordinal) = read_number(word) else {
        let unread = b"number not understood: ";
        return complain(output, errors, unread, word, Status::NotUnderstood);
    };
    if let Some((surplus, _)) = first_word(others) {
        let surplus_is = b"argument not understood: ";
        return complain(output, errors, surplus_is, surplus, Status::NotUnderstood);
    }
    let mut sheet = [0u8; 120];
    put_little(ordinal, &mut sheet, output, errors)
}
