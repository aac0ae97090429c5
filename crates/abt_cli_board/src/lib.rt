//! `board`, as a function of its command line, its files and its outputs: it draws a network after
//! the start, or as an image has it, and after each call. docs/PROGRAMS.md, 'The board and the
//! image on the command line'. Stands on `abt_board_text` (what it prints) and `support_cli`
//! (outputs, files and statuses). Start reading at `board`; specs/Answers.antt says what it
//! answers.
#![tactic(auto)]

ghost use Rattle.std.specs.Prelude.{◌≡◌, ◌++◌, map, vec_items, is_some, OnOk, IfOk, MatchResult};
ghost use Rattle.model_dispatch.specs.Dispatch.{dispatcher};
ghost use Rattle.abt_dispatch.specs.Abstract.{dispatcher_of};
ghost use Rattle.support_cli.specs.Streams.{output_of, Puts};
ghost use Rattle.support_cli.specs.Answers.{status_code, prints};
ghost use Rattle.abt_board_text.specs.Reading.{call_in};
ghost use Rattle.abt_board_text.specs.Calling.{begun_number, begun_of, after_word};
ghost use Rattle.abt_board_text.specs.Text.{unopened_text, call_text};
ghost use Rattle.abt_cli_board.specs.Answers.{calls_text, call_status, calls_status, began_by, played, unread, opened_by, unfiled_status, unopened_status, answer_by, board_answer, file_named};
ghost use Rattle.abt_cli_board.specs.Saying.{Said, SaidOf, Gives};

use abt_board_text::options::{
    Options, Read, Stage, no_options, opens, put_unopened, read_options, rule_of,
};
use abt_board_text::{Stepped, put_call, put_image, put_start};
use abt_dispatch::Dispatcher;
use abt_record::is_rule;
use std::alloc::{AllocError, Global};
use std::io::Write;
use support_cli::{Output, Status, Store, end, first_word, say};
use support_rejection::Rejection;

// ---- calls

// Makes the call that a word says, and writes what is said of it, in one piece.
fn make<W: Write>(
    alloc: Global,
    d: Dispatcher,
    word: &[u8],
    output: &mut Output<W>,
) -> Result<Stepped, AllocError>
    ensures said { MatchResult result (λ _. Puts (call_text word.now (dispatcher_of d)) (output_of W.contents output.old) (output_of W.contents output.new)) (λ _. output.new ≡ output.old) }
    ensures after { IfOk result (λ s. dispatcher_of s.dispatcher ≡ after_word (call_in word.now) (dispatcher_of d)) }
    ensures understood { IfOk result (λ s. s.understood ≡ is_some (call_in word.now)) }
{
    let mut text = Vec::new(alloc);
    let stepped = put_call(&mut text, d, word)?;
    output.put(&text);
    Ok(stepped)
}

// The status of one word: whether it is a call.
#[tactic(auto, unfolding(crate::specs::Answers::call_status))]
fn status_of(understood: bool, word: &[u8]) -> Status
    requires { understood ≡ is_some (call_in word.now) }
    ensures { status_code result ≡ call_status word.now }
{
    if understood {
        Status::Done
    } else {
        Status::NotUnderstood
    }
}

// The calls, one by one, as long as what is said of them can be written.
fn play<W: Write>(
    alloc: Global,
    d: Dispatcher,
    calls: &[Vec<u8>],
    output: &mut Output<W>,
) -> Result<Status, AllocError>
    ensures { Said (prints (calls_text (map vec_items calls.now) (dispatcher_of d)) (calls_status (map vec_items calls.now))) result (output_of W.contents output.old) (output_of W.contents output.new) }
{
    let mut left = d;
    let mut status = Status::Done;
    let mut rest = calls;
    while let Some((word, others)) = first_word(rest) {
        if output.has_failed() {
            return Ok(status);
        }
        let stepped = make(alloc, left, word, output)?;
        left = stepped.dispatcher;
        status = status.or(status_of(stepped.understood, word));
        rest = others;
    }
    Ok(status)
}

// ---- the file

// Starts the sheet or reads the image that the bytes are, and puts what is said of it.
fn begin_by(
    out: &mut Vec<u8>,
    o: Options,
    bytes: &[u8],
) -> Result<Result<Dispatcher, Rejection>, AllocError>
    ensures text { OnOk result (out.new.items ≡ out.old.items ++ (began_by o bytes.now).text) }
    ensures number { IfOk result (λ b. begun_number b ≡ (began_by o bytes.now).number) }
    ensures network { IfOk result (λ b. begun_of b ≡ dispatcher (began_by o bytes.now).network) }
{
    if o.image {
        put_image(out, bytes)
    } else {
        put_start(out, rule_of(o), bytes)
    }
}

// The file's bytes, and the calls where they are not rejected.
fn begin_and_play<W: Write>(
    alloc: Global,
    o: Options,
    bytes: &[u8],
    calls: &[Vec<u8>],
    output: &mut Output<W>,
) -> Result<Status, AllocError>
    ensures { Said (played (began_by o bytes.now) (map vec_items calls.now)) result (output_of W.contents output.old) (output_of W.contents output.new) }
{
    let mut text = Vec::new(alloc);
    let begun = begin_by(&mut text, o, bytes)?;
    output.put(&text);
    match begun {
        Ok(d) => play(alloc, d, calls, output),
        Err(_) => Ok(Status::Refused),
    }
}

// "cannot read W"
#[tactic(auto, unfolding(crate::specs::Answers::unread, support_cli::specs::Answers::prints))]
fn say_unread<W: Write>(name: &[u8], output: &mut Output<W>) -> Status
    ensures { Puts (unread name.now).output (output_of W.contents output.old) (output_of W.contents output.new) × (status_code result ≡ (unread name.now).status) }
{
    say(output, b"cannot read ", name);
    Status::NotUnderstood
}

// One byte beyond the longest sheet tells that the file is too long; no image is as long.
fn open<S: Store, W: Write>(
    alloc: Global,
    files: &S,
    line: &Read<'_>,
    output: &mut Output<W>,
) -> Result<Status, AllocError>
    ensures { SaidOf (opened_by line.now.options line.now.word.now (map vec_items line.now.calls.now)) (S.held files.now line.now.word.now) result (output_of W.contents output.old) (output_of W.contents output.new) }
{
    let mut bytes = [0u8; 33817];
    match files.read(line.word, &mut bytes) {
        Some(n) => begin_and_play(alloc, line.options, &bytes[..n], line.calls, output),
        None => Ok(say_unread(line.word, output)),
    }
}

// ---- no file

// The status where no file is opened though all options are understood.
#[tactic(auto, unfolding(crate::specs::Answers::unfiled_status))]
fn unfiled_status(o: Options) -> Status
    ensures { status_code result ≡ unfiled_status o }
{
    if is_rule(rule_of(o)) {
        Status::NotUnderstood
    } else {
        Status::Refused
    }
}

// The status where no file is opened.
#[tactic(auto, unfolding(crate::specs::Answers::unopened_status))]
fn unopened_status(o: Options) -> Status
    ensures { status_code result ≡ unopened_status o.stage o }
{
    match o.stage {
        Stage::Words | Stage::File => unfiled_status(o),
        Stage::Awaits | Stage::Wrong => Status::NotUnderstood,
    }
}

// The one line where no file is opened, with the word read last.
fn say_unopened<W: Write>(
    alloc: Global,
    o: Options,
    word: &[u8],
    output: &mut Output<W>,
) -> Result<Status, AllocError>
    ensures { Said (prints (unopened_text o word.now) (unopened_status o.stage o)) result (output_of W.contents output.old) (output_of W.contents output.new) }
{
    let mut text = Vec::new(alloc);
    put_unopened(&mut text, o, word)?;
    output.put(&text);
    Ok(unopened_status(o))
}

// ---- all of it

// What the words in front of the calls come to.
fn follow<S: Store, W: Write>(
    alloc: Global,
    files: &S,
    line: &Read<'_>,
    output: &mut Output<W>,
) -> Result<Status, AllocError>
    ensures { SaidOf (answer_by line.now.options line.now.word.now (map vec_items line.now.calls.now)) (S.held files.now line.now.word.now) result (output_of W.contents output.old) (output_of W.contents output.new) }
{
    if opens(line.options) {
        open(alloc, files, line, output)
    } else {
        say_unopened(alloc, line.options, line.word, output)
    }
}

/// Draws the network that the command line asks for, after the start or the image and after each
/// call. All of it is written on standard output, what is said of each word in one piece; standard
/// error is told only where that cannot be written.
///
/// The words are those behind the program's name. The status is 0 where all is done, 1 where a
/// rule, a sheet or an image is rejected, 2 where something is not understood or cannot be read,
/// and where memory runs out, and 3 where standard output cannot be written. A rejected call does
/// not raise it. Equals `board_answer` of specs/Answers.antt, or a beginning of it where memory
/// runs out.
pub fn board<S: Store, W: Write, E: Write>(
    alloc: Global,
    files: &S,
    words: &[Vec<u8>],
    output: &mut Output<W>,
    errors: &mut Output<E>,
) -> Status
    ensures { Gives (board_answer (map vec_items words.now)) (S.held files.now (file_named (map vec_items words.now))) (output_of W.contents output.old) (output_of W.contents output.new) (output_of E.contents errors.old) (output_of E.contents errors.new) (status_code result) }
{
    let line = read_options(no_options(true), words);
    let said = follow(alloc, files, &line, output);
    end(output, errors, said.unwrap_or(Status::NotUnderstood))
}
