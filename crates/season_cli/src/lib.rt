//! `season`, as a function of its command line, its input and its outputs: it prints the figures of
//! a stream of sheets. docs/PROGRAMS.md, 'A season's figures'. Stands on `season_figures` (reading
//! and counting), `season_text` (the text) and `support_cli` (input, outputs and statuses). Start
//! reading at `season`; specs/Answers.antt says what it answers.
#![tactic(auto)]

ghost use Rattle.std.specs.Prelude.{◌≡◌, length, map, vec_items, take};
ghost use Rattle.io.specs.Counts.{IsPrefixLen};
ghost use Rattle.season_figures.specs.Pieces.{season_of};
ghost use Rattle.support_cli.specs.Streams.{input_of, output_of, Puts};
ghost use Rattle.support_cli.specs.Answers.{status_code, done, prints, Answered};
ghost use Rattle.season_text.specs.Text.{season_text};
ghost use Rattle.season_cli.specs.Answers.{Stream, is_progress, wrong_what, wrong_answer, progress_line};
ghost use Rattle.season_cli.specs.Behaving.{Serves, Behaves};
ghost use Rattle.season_cli.specs.Pieces.{TakesSheet, TakesPiece, due, progress_behind, StreamRead};

use season_figures::stream::{MOST_SHEETS, Season, length_in};
use std::io::{Read, Write};
use support_buffer::append_number;
use support_buffer::cursor::Cursor;
use support_cli::{Input, Output, Status, end, first_word, print, say};

// ---- the stream

// With the piece whose length these bytes are. `part` is as long as the sheet behind them, and
// takes what there is of it.
fn with_sheet_in<R: Read>(s: Season, head: &[u8], part: &mut [u8], input: &mut Input<R>) -> Season
    ensures { TakesSheet (length part.old) head.now (input_of R.remaining input.old) (input_of R.remaining input.new) s result }
{
    let got = input.read_full(part);
    s.with_piece(head, &part[..got])
}

// With the next piece: two bytes are read for a length, then as many as they say, and no byte more.
fn next<R: Read>(s: Season, space: &mut [u8; 65536], input: &mut Input<R>) -> Season
    ensures { TakesPiece (input_of R.remaining input.old) (input_of R.remaining input.new) s result }
{
    let mut head = [0u8; 2];
    let k = input.read_full(&mut head);
    match length_in(&head[..k]) {
        Some(n) => with_sheet_in(s, &head[..k], &mut space[..n as usize], input),
        None => s.with_piece(&head[..k], &[]),
    }
}

// ---- progress

// Writes the line that says how many sheets are read, and returns how many bytes it has.
fn line_of_progress(sheets: u64, line: &mut [u8; 28]) -> usize
    ensures text { take result line.new ≡ progress_line sheets }
    ensures prefix_len { IsPrefixLen result line.new }
{
    let mut next = Cursor {
        buffer: line,
        at: 0,
    };
    append_number(&mut next, sheets);
    next.put_all(b" sheets\n");
    next.at
}

// Whether a line is to be said behind a piece.
#[tactic(auto, unfolding(crate::specs::Pieces::due))]
fn is_due(tells: bool, s: Season) -> bool
    ensures { result ≡ due tells s }
{
    tells && !s.is_over() && s.figures.sheets % 1000 == 0
}

// A line on standard error after every 1,000 sheets.
fn say_progress<E: Write>(tells: bool, s: Season, errors: &mut Output<E>)
    ensures { Puts (progress_behind tells s) (output_of E.contents errors.old) (output_of E.contents errors.new) }
{
    if is_due(tells, s) {
        let mut line = [0u8; 28];
        let length = line_of_progress(s.figures.sheets, &mut line);
        errors.put(&line[..length]);
    }
}

// ---- the figures

// At most 1,000,000 sheets are read, and nothing after them.
fn read_stream<R: Read, E: Write>(
    tells: bool,
    space: &mut [u8; 65536],
    input: &mut Input<R>,
    errors: &mut Output<E>,
) -> Season
    ensures { StreamRead tells (input_of R.remaining input.old) (input_of R.remaining input.new) (output_of E.contents errors.old) (output_of E.contents errors.new) result }
{
    let mut s = Season::begin();
    for _ in 0..MOST_SHEETS {
        if s.is_over() {
            break;
        }
        s = next(s, space, input);
        say_progress(tells, s, errors);
    }
    s
}

// Prints the figures of what was read.
fn put_season<W: Write, E: Write>(
    s: Season,
    output: &mut Output<W>,
    errors: &mut Output<E>,
) -> Status
    ensures { Answered (prints (season_text (season_of s)) done) (output_of W.contents output.old) (output_of W.contents output.new) (output_of E.contents errors.old) (output_of E.contents errors.new) (status_code result) }
{
    let mut text = [0u8; 512];
    let length = season_text::text(s, &mut text);
    print(output, errors, &text[..length], Status::Done)
}

// Reads the stream, and prints its figures.
fn follow<R: Read, W: Write, E: Write>(
    tells: bool,
    input: &mut Input<R>,
    output: &mut Output<W>,
    errors: &mut Output<E>,
) -> Status
    ensures { Serves (Stream tells) (input_of R.remaining input.old) (input_of R.remaining input.new) (output_of W.contents output.old) (output_of W.contents output.new) (output_of E.contents errors.old) (output_of E.contents errors.new) (status_code result) }
{
    let mut space = [0u8; 65536];
    let s = read_stream(tells, &mut space, input, errors);
    put_season(s, output, errors)
}

// ---- the command line

#[tactic(auto, unfolding(crate::specs::Answers::is_progress))]
fn is_progress(word: &[u8]) -> bool
    ensures { result ≡ is_progress word.now }
{
    word == b"--progress".as_slice()
}

// What is said in front of a word that is not understood.
#[tactic(auto, unfolding(crate::specs::Answers::wrong_what))]
fn wrong_what(word: &[u8]) -> &'static [u8]
    ensures { result.now ≡ wrong_what word.now }
{
    if word.starts_with(b"--") {
        b"option not understood: "
    } else {
        b"argument not understood: "
    }
}

// A word that is not understood: an unknown option, one that stands twice, or a word too many.
fn put_wrong<W: Write, E: Write>(
    word: &[u8],
    output: &mut Output<W>,
    errors: &mut Output<E>,
) -> Status
    ensures { Answered (wrong_answer word.now) (output_of W.contents output.old) (output_of W.contents output.new) (output_of E.contents errors.old) (output_of E.contents errors.new) (status_code result) }
{
    say(output, wrong_what(word), word);
    end(output, errors, Status::NotUnderstood)
}

/// Reads the stream on the input, and prints its figures on standard output. With `--progress` it
/// says how many sheets it has read, in a line on standard error after every 1,000. It takes
/// exactly the bytes of the lengths and sheets that it reads, and none before the command line is
/// understood.
///
/// The words are those behind the program's name. The status is 0 whatever the sheets come to, 2
/// where a word is not understood, and 3 where standard output cannot be written. `Behaves` of
/// specs/Behaving.antt says so.
pub fn season<R: Read, W: Write, E: Write>(
    words: &[Vec<u8>],
    input: &mut Input<R>,
    output: &mut Output<W>,
    errors: &mut Output<E>,
) -> Status
    ensures { Behaves (map vec_items words.now) (input_of R.remaining input.old) (input_of R.remaining input.new) (output_of W.contents output.old) (output_of W.contents output.new) (output_of E.contents errors.old) (output_of E.contents errors.new) (status_code result) }
{
    let Some((word, others)) = first_word(words) else {
        return follow(false, input, output, errors);
    };
    if !is_progress(word) {
        return put_wrong(word, output, errors);
    }
    match first_word(others) {
        None => follow(true, input, output, errors),
        Some((surplus, _)) => put_wrong(surplus, output, errors),
    }
}
