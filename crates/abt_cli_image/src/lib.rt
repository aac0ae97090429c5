//! `image`, as a function of its command line, its files and its outputs: it writes the image of
//! the network that calls on a sheet leave, or the other form of an image. docs/PROGRAMS.md, 'The
//! board and the image on the command line'; docs/FORMATS.md, 'The image' and 'The second form'.
//! Stands on `abt_image_mover`, `abt_calls`, the options of `abt_board_text` and `support_cli`.
//! Start reading at `image`; specs/Answers.antt says what it answers.
#![tactic(auto)]

ghost use Rattle.std.specs.Prelude.{◌≡◌, length, map, vec_items, IfOk, MatchResult};
ghost use Rattle.model_network.specs.Network.{start_sheet};
ghost use Rattle.model_dispatch.specs.Dispatch.{dispatcher};
ghost use Rattle.abt_dispatch.specs.Abstract.{dispatcher_of};
ghost use Rattle.theorems_dispatch.specs.Steps.{left_by_steps};
ghost use Rattle.abt_calls.specs.Abstract.{step_of};
ghost use Rattle.abt_image_mover.specs.Form.{form_named};
ghost use Rattle.support_cli.specs.Streams.{output_of};
ghost use Rattle.support_cli.specs.Answers.{status_code, Answered};
ghost use Rattle.abt_board_text.specs.Options.{rule_of};
ghost use Rattle.abt_cli_image.specs.Calls.{Understood, NoCall, calls_from};
ghost use Rattle.abt_cli_image.specs.Answers.{stored, moved_answer, played, remembered, started, form_by, opened_by, unfiled, unopened, write_by, write_answer, sheet_named, moved_by, move_answer, image_named, command_in, image_answer, file_named};
ghost use Rattle.abt_cli_image.specs.Giving.{Ends, Gives};

use abt_board_text::options::{
    Options, Read, Stage, is_option, no_options, opens, read_options, rule_of,
};
use abt_board_text::{begin, read_call};
use abt_calls::{Call, play};
use abt_dispatch::Dispatcher;
use abt_image_mover::{Form, move_image, store_as};
use abt_record::is_rule;
use std::alloc::{AllocError, Global};
use std::io::Write;
use support_cli::{Output, Status, Store, complain, first_word, hand_over, refuse, tell};
use support_rejection::Rejection;

// What is asked for: the image of a network, or the other form of an image.
#[derive(Clone, Copy)]
enum Command {
    Write,
    Move,
}

#[tactic(auto, unfolding(crate::specs::Answers::command_in))]
fn command_of(word: &[u8]) -> Option<Command>
    ensures { result ≡ command_in word.now }
{
    if word == b"write".as_slice() {
        Some(Command::Write)
    } else if word == b"move".as_slice() {
        Some(Command::Move)
    } else {
        None
    }
}

// ---- calls

// The calls that the words say; or the first word that says none.
fn read_calls(alloc: Global, words: &[Vec<u8>]) -> Result<Result<Vec<Call>, &[u8]>, AllocError>
    ensures { IfOk result (λ read. MatchResult read (λ calls. calls_from (map vec_items words.now) ≡ Understood calls.items) (λ word. calls_from (map vec_items words.now) ≡ NoCall word.now)) }
{
    let mut calls = Vec::new(alloc);
    let mut rest = words;
    while let Some((word, others)) = first_word(rest) {
        let Some(call) = read_call(word) else {
            return Ok(Err(word));
        };
        calls.push(call)?;
        rest = others;
    }
    Ok(Ok(calls))
}

// The image of the network that the calls leave. The longest has 19,744 bytes.
fn write_played<W: Write, E: Write>(
    form: Form,
    d: Dispatcher,
    calls: &[Call],
    output: &mut Output<W>,
    errors: &mut Output<E>,
) -> Status
    ensures { Answered (played (form_named form) (dispatcher_of d) (Understood calls.now)) (output_of W.contents output.old) (output_of W.contents output.new) (output_of E.contents errors.old) (output_of E.contents errors.new) (status_code result) }
{
    let mut image = [0u8; 19744];
    let length = store_as(form, play(d, calls).dispatcher.network, &mut image);
    hand_over(output, errors, length, &image)
}

// The words are all read before a call is made.
fn play_words<W: Write, E: Write>(
    alloc: Global,
    form: Form,
    d: Dispatcher,
    words: &[Vec<u8>],
    output: &mut Output<W>,
    errors: &mut Output<E>,
) -> Status
    ensures { Ends (λ enough. remembered enough (played (form_named form) (dispatcher_of d) (calls_from (map vec_items words.now)))) (output_of W.contents output.old) (output_of W.contents output.new) (output_of E.contents errors.old) (output_of E.contents errors.new) (status_code result) }
{
    let Ok(read) = read_calls(alloc, words) else {
        return tell(output, errors, b"", Status::NotUnderstood);
    };
    match read {
        Ok(calls) => write_played(form, d, &calls, output, errors),
        Err(word) => {
            let unread = b"call not understood: ";
            complain(output, errors, unread, word, Status::NotUnderstood)
        }
    }
}

// ---- the sheet

// The form that the options ask for.
#[tactic(auto, unfolding(crate::specs::Answers::form_by))]
fn form_of(o: Options) -> Form
    ensures { form_named result ≡ form_by o }
{
    if o.small { Form::Second } else { Form::First }
}

// The sheet's start, and the calls where it is not rejected.
fn start_and_play<W: Write, E: Write>(
    alloc: Global,
    o: Options,
    sheet: &[u8],
    words: &[Vec<u8>],
    output: &mut Output<W>,
    errors: &mut Output<E>,
) -> Status
    ensures { Ends (λ enough. started (form_by o) (map vec_items words.now) enough (start_sheet (rule_of o) sheet.now)) (output_of W.contents output.old) (output_of W.contents output.new) (output_of E.contents errors.old) (output_of E.contents errors.new) (status_code result) }
{
    match begin(rule_of(o), sheet) {
        Ok(d) => play_words(alloc, form_of(o), d, words, output, errors),
        Err(rejection) => refuse(output, errors, rejection),
    }
}

// One byte beyond the longest sheet tells that the file is too long.
fn open_sheet<S: Store, W: Write, E: Write>(
    alloc: Global,
    files: &S,
    line: &Read<'_>,
    output: &mut Output<W>,
    errors: &mut Output<E>,
) -> Status
    ensures { Gives (opened_by line.now.options line.now.word.now (map vec_items line.now.calls.now)) (S.held files.now line.now.word.now) (output_of W.contents output.old) (output_of W.contents output.new) (output_of E.contents errors.old) (output_of E.contents errors.new) (status_code result) }
{
    let mut sheet = [0u8; 33817];
    match files.read(line.word, &mut sheet) {
        Some(n) => start_and_play(alloc, line.options, &sheet[..n], line.calls, output, errors),
        None => complain(
            output,
            errors,
            b"cannot read ",
            line.word,
            Status::NotUnderstood,
        ),
    }
}

// ---- no sheet

// A rule that the start rejects is said before a missing file.
#[tactic(auto, unfolding(crate::specs::Answers::unfiled, crate::specs::Answers::no_file))]
fn say_unfiled<W: Write, E: Write>(
    o: Options,
    output: &mut Output<W>,
    errors: &mut Output<E>,
) -> Status
    ensures { Answered (unfiled o) (output_of W.contents output.old) (output_of W.contents output.new) (output_of E.contents errors.old) (output_of E.contents errors.new) (status_code result) }
{
    if !is_rule(rule_of(o)) {
        return refuse(output, errors, Rejection::BadRule);
    }
    let usage = b"image write [--rule N] [--small] SHEET [CALL ..]";
    complain(
        output,
        errors,
        b"no file given: ",
        usage,
        Status::NotUnderstood,
    )
}

// The one line where no file is opened, with the word read last.
#[tactic(auto, unfolding(crate::specs::Answers::unopened, crate::specs::Answers::strange_option))]
fn say_unopened<W: Write, E: Write>(
    o: Options,
    word: &[u8],
    output: &mut Output<W>,
    errors: &mut Output<E>,
) -> Status
    ensures { Answered (unopened o.stage o word.now) (output_of W.contents output.old) (output_of W.contents output.new) (output_of E.contents errors.old) (output_of E.contents errors.new) (status_code result) }
{
    let strange = b"option not understood: ";
    match o.stage {
        Stage::Words | Stage::File => say_unfiled(o, output, errors),
        Stage::Awaits => complain(output, errors, strange, b"--rule", Status::NotUnderstood),
        Stage::Wrong => complain(output, errors, strange, word, Status::NotUnderstood),
    }
}

// ---- `image write`

// What the words in front of the calls come to.
fn follow<S: Store, W: Write, E: Write>(
    alloc: Global,
    files: &S,
    line: &Read<'_>,
    output: &mut Output<W>,
    errors: &mut Output<E>,
) -> Status
    ensures { Gives (write_by line.now.options line.now.word.now (map vec_items line.now.calls.now)) (S.held files.now line.now.word.now) (output_of W.contents output.old) (output_of W.contents output.new) (output_of E.contents errors.old) (output_of E.contents errors.new) (status_code result) }
{
    if opens(line.options) {
        open_sheet(alloc, files, line, output, errors)
    } else {
        say_unopened(line.options, line.word, output, errors)
    }
}

// `image write`, by the words behind it.
fn write_image<S: Store, W: Write, E: Write>(
    alloc: Global,
    files: &S,
    words: &[Vec<u8>],
    output: &mut Output<W>,
    errors: &mut Output<E>,
) -> Status
    ensures { Gives (write_answer (map vec_items words.now)) (S.held files.now (sheet_named (map vec_items words.now))) (output_of W.contents output.old) (output_of W.contents output.new) (output_of E.contents errors.old) (output_of E.contents errors.new) (status_code result) }
{
    let line = read_options(no_options(false), words);
    follow(alloc, files, &line, output, errors)
}

// ---- `image move`

// The other form of an image.
fn write_moved<W: Write, E: Write>(
    given: &[u8],
    output: &mut Output<W>,
    errors: &mut Output<E>,
) -> Status
    ensures { Answered (moved_answer given.now) (output_of W.contents output.old) (output_of W.contents output.new) (output_of E.contents errors.old) (output_of E.contents errors.new) (status_code result) }
{
    let mut other = [0u8; 19744];
    let length = move_image(given, &mut other);
    hand_over(output, errors, length, &other)
}

// As much is read as of a sheet: no image is as long.
fn open_image<S: Store, W: Write, E: Write>(
    files: &S,
    name: &[u8],
    output: &mut Output<W>,
    errors: &mut Output<E>,
) -> Status
    ensures { Gives (λ enough. moved_by name.now) (S.held files.now name.now) (output_of W.contents output.old) (output_of W.contents output.new) (output_of E.contents errors.old) (output_of E.contents errors.new) (status_code result) }
{
    let mut given = [0u8; 33817];
    match files.read(name, &mut given) {
        Some(n) => write_moved(&given[..n], output, errors),
        None => complain(output, errors, b"cannot read ", name, Status::NotUnderstood),
    }
}

// `image move`, by the words behind it: the image's name alone, and no options.
fn move_named<S: Store, W: Write, E: Write>(
    files: &S,
    words: &[Vec<u8>],
    output: &mut Output<W>,
    errors: &mut Output<E>,
) -> Status
    ensures { Gives (λ enough. move_answer (map vec_items words.now)) (S.held files.now (image_named (map vec_items words.now))) (output_of W.contents output.old) (output_of W.contents output.new) (output_of E.contents errors.old) (output_of E.contents errors.new) (status_code result) }
{
    let Some((name, others)) = first_word(words) else {
        let usage = b"image move IMAGE";
        return complain(
            output,
            errors,
            b"no file given: ",
            usage,
            Status::NotUnderstood,
        );
    };
    if is_option(name) {
        let strange = b"option not understood: ";
        return complain(output, errors, strange, name, Status::NotUnderstood);
    }
    if let Some((surplus, _)) = first_word(others) {
        let surplus_is = b"argument not understood: ";
        return complain(output, errors, surplus_is, surplus, Status::NotUnderstood);
    }
    open_image(files, name, output, errors)
}

// ---- all of it

/// Writes the image that the command line asks for on standard output. Where something is rejected
/// or not understood, one line on standard error says so, and nothing is written on standard
/// output.
///
/// The words are those behind the program's name. The status is 0 where the image is written, 1
/// where a rule, a sheet or an image is rejected, 2 where something is not understood or cannot be
/// read, and where memory runs out for the list of calls, and 3 where standard output cannot be
/// written. Equals `image_answer` of specs/Answers.antt.
pub fn image<S: Store, W: Write, E: Write>(
    alloc: Global,
    files: &S,
    words: &[Vec<u8>],
    output: &mut Output<W>,
    errors: &mut Output<E>,
) -> Status
    ensures { Gives (image_answer (map vec_items words.now)) (S.held files.now (file_named (map vec_items words.now))) (output_of W.contents output.old) (output_of W.contents output.new) (output_of E.contents errors.old) (output_of E.contents errors.new) (status_code result) }
{
    let Some((word, others)) = first_word(words) else {
        let usage = b"image write [--rule N] [--small] SHEET [CALL ..], or image move IMAGE";
        return complain(
            output,
            errors,
            b"no command given: ",
            usage,
            Status::NotUnderstood,
        );
    };
    let Some(command) = command_of(word) else {
        let unread = b"command not understood: ";
        return complain(output, errors, unread, word, Status::NotUnderstood);
    };
    match command {
        Command::Write => write_image(alloc, files, others, output, errors),
        Command::Move => move_named(files, others, output, errors),
    }
}
