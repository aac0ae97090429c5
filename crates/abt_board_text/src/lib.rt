//! What `board` prints, as text made in memory, and what each word of its command line does.
//! docs/PROGRAMS.md, 'The board and the image on the command line'. Stands on `abt_calls` (calls
//! and what they come to) and `abt_board_drawing` (the board). Start reading at `put_start`,
//! `put_image` and `put_call`; module `options` reads the words in front of the calls.
//!
//! Each function that makes text appends it to `out`; where memory runs out it returns
//! `AllocError`, and `out` holds some beginning of the text.
#![tactic(auto)]

ghost use Rattle.std.specs.Prelude.{◌≡◌, ◌++◌, ◌∷◌, [], is_some, map, option_map, OnOk, IfOk};
ghost use Rattle.model_network.specs.Network.{start_sheet};
ghost use Rattle.model_network.specs.Run.{ending_word};
ghost use Rattle.model_image_forms.specs.Reading.{load};
ghost use Rattle.support_rejection.specs.Rejections.{rejection_number};
ghost use Rattle.abt_engine.specs.Answers.{ending_of};
ghost use Rattle.abt_record.specs.Abstract.{network_of};
ghost use Rattle.abt_dispatch.specs.Abstract.{line_of, dispatcher_of};
ghost use Rattle.model_base.specs.Decimal.{newline, line_of as number_line};
ghost use Rattle.abt_calls.specs.Abstract.{came_of};
ghost use Rattle.abt_board_drawing.specs.Text.{board_of};
ghost use Rattle.abt_board_text.specs.Reading.{call_in};
ghost use Rattle.abt_board_text.specs.Calling.{BeginsAs, LoadsAs, after_word, RunsAll};
ghost use Rattle.abt_board_text.specs.Text.{rule_text, first_text, unstarted_text, start_text, image_text, ends_text, called_text, ran_line, came_text, call_text};
ghost use Rattle.abt_board_text.specs.Putting.{last_text, begun_text, loaded_text};

mod calls;
pub mod options;

use abt_board_drawing::{put_board, put_number};
use abt_calls::{Call, Outcome, Played, play};
use abt_dispatch::{Dispatcher, Line};
use abt_engine::Ending;
use abt_record::Network;
use abt_words::word_for;
pub use calls::read_call;
use calls::without_leading_zeros;
use options::{put_bad_rule, put_not_understood};
use std::alloc::AllocError;
use support_rejection::Rejection;

/// What a word of the command line did, as `put_call` returns it.
#[derive(Clone, Copy)]
pub struct Stepped {
    /// The dispatcher that the word leaves, with its network.
    pub dispatcher: Dispatcher,
    /// Whether the word is a call.
    pub understood: bool,
}

// ---- the start

/// Starts a sheet by a rule, and returns a dispatcher that begins above the network: no picks made,
/// no place held. A caller may cut a longer input behind 33,817 bytes: the answer is the same.
///
/// Errors: `BadRule` (11) for a rule other than 1 and 2, else those of the sheet: `BadLength` (1),
/// `BadHeader` (2), `BadRecord` (3), `Cycle` (4). `BeginsAs` of specs/Calling.antt says what it
/// returns.
pub fn begin(rule: u8, sheet: &[u8]) -> Result<Dispatcher, Rejection>
    ensures { BeginsAs rule sheet.now result }
{
    match abt_start::start(rule, sheet) {
        Ok(network) => Ok(abt_dispatch::begin(network)),
        Err(rejection) => Err(rejection),
    }
}

/// Reads an image of either form, and returns a dispatcher that begins above its network: no picks
/// made, no place held. A caller may cut a longer input behind 33,817 bytes: the answer is the
/// same.
///
/// Error: `BadImage` (13) unless the bytes are the image of a network in shape. `LoadsAs` of
/// specs/Calling.antt says what it returns.
pub fn begin_image(image: &[u8]) -> Result<Dispatcher, Rejection>
    ensures { LoadsAs image.now result }
{
    match abt_image_mover::load(image) {
        Ok(network) => Ok(abt_dispatch::begin(network)),
        Err(rejection) => Err(rejection),
    }
}

/// Appends a line that ends in a number: `before`, n in decimal, and a newline. `AllocError` where
/// memory runs out. Equals `line_of` of model_base/specs/Decimal.antt.
#[tactic(auto, unfolding(model_base::specs::Decimal::line_of, model_base::specs::Decimal::newline))]
pub(crate) fn put_number_line(out: &mut Vec<u8>, before: &[u8], n: u64) -> Result<(), AllocError>
    ensures { OnOk result (out.new.items ≡ out.old.items ++ number_line before.now n) }
{
    out.extend_from_slice(before)?;
    put_number(out, n)?;
    out.extend_from_slice(b"\n")
}

// Rule 2 is named, rule 1 is not.
#[tactic(auto, unfolding(crate::specs::Text::rule_text, abt_board_drawing::specs::Text::said_if))]
fn put_rule(out: &mut Vec<u8>, rule: u8) -> Result<(), AllocError>
    ensures { OnOk result (out.new.items ≡ out.old.items ++ rule_text rule) }
{
    if rule == 2 {
        out.extend_from_slice(b", rule 2")
    } else {
        Ok(())
    }
}

// The first line, `word` with the rule behind it, and the board.
#[tactic(auto, unfolding(crate::specs::Text::first_text, model_base::specs::Decimal::newline, abt_record::specs::Abstract::network_of))]
fn put_first(out: &mut Vec<u8>, word: &[u8], r: &Network) -> Result<(), AllocError>
    ensures { OnOk result (out.new.items ≡ out.old.items ++ first_text word.now (network_of r.now)) }
{
    out.extend_from_slice(word)?;
    put_rule(out, r.rule)?;
    out.extend_from_slice(b"\n")?;
    put_board(out, r)
}

// The line of a start that is rejected.
fn put_unstarted(out: &mut Vec<u8>, rejection: Rejection) -> Result<(), AllocError>
    ensures { OnOk result (out.new.items ≡ out.old.items ++ unstarted_text (rejection_number rejection)) }
{
    match rejection {
        Rejection::BadRule => put_bad_rule(out),
        _ => put_number_line(out, b"sheet refused ", u64::from(rejection.number())),
    }
}

// Of the start of a sheet: the first line and the board, or the rejection.
fn put_begun(out: &mut Vec<u8>, begun: &Result<Dispatcher, Rejection>) -> Result<(), AllocError>
    ensures { OnOk result (out.new.items ≡ out.old.items ++ begun_text begun.now) }
{
    match begun {
        Ok(dispatcher) => put_first(out, b"start", &dispatcher.network),
        Err(rejection) => put_unstarted(out, *rejection),
    }
}

// Of an image: the first line and the board, or the rejection.
fn put_loaded(out: &mut Vec<u8>, begun: &Result<Dispatcher, Rejection>) -> Result<(), AllocError>
    ensures { OnOk result (out.new.items ≡ out.old.items ++ loaded_text begun.now) }
{
    match begun {
        Ok(dispatcher) => put_first(out, b"image", &dispatcher.network),
        Err(rejection) => put_number_line(out, b"image refused ", u64::from(rejection.number())),
    }
}

/// Starts a sheet by a rule as `begin` does, and appends what is printed of it to `out`: the first
/// line and the board, or the rejection of the rule or the sheet. The inner result is that of
/// `begin`; the outer one is `AllocError` where memory runs out. The text equals `start_text` of
/// specs/Text.antt.
pub fn put_start(
    out: &mut Vec<u8>,
    rule: u8,
    sheet: &[u8],
) -> Result<Result<Dispatcher, Rejection>, AllocError>
    ensures text { OnOk result (out.new.items ≡ out.old.items ++ start_text (start_sheet rule sheet.now)) }
    ensures begun { IfOk result (λ b. BeginsAs rule sheet.now b) }
{
    let begun = begin(rule, sheet);
    put_begun(out, &begun)?;
    Ok(begun)
}

/// Reads an image as `begin_image` does, and appends what is printed of it to `out`: the first line
/// and the board, or the rejection. The inner result is that of `begin_image`; the outer one is
/// `AllocError` where memory runs out. The text equals `image_text` of specs/Text.antt.
pub fn put_image(
    out: &mut Vec<u8>,
    image: &[u8],
) -> Result<Result<Dispatcher, Rejection>, AllocError>
    ensures text { OnOk result (out.new.items ≡ out.old.items ++ image_text (load image.now)) }
    ensures loaded { IfOk result (λ b. LoadsAs image.now b) }
{
    let begun = begin_image(image);
    put_loaded(out, &begun)?;
    Ok(begun)
}

// ---- calls

// Both ends of a channel.
#[tactic(auto, unfolding(crate::specs::Text::ends_text))]
fn put_ends(out: &mut Vec<u8>, line: Line) -> Result<(), AllocError>
    ensures { OnOk result (out.new.items ≡ out.old.items ++ ends_text (line_of line)) }
{
    put_number(out, u64::from(line.from))?;
    out.extend_from_slice(b" ")?;
    put_number(out, u64::from(line.to))
}

// A call, as it is said again in front of what it came to. The rounds of a run are said by their
// digits, of any length, without leading zeros.
#[tactic(auto, unfolding(crate::specs::Text::called_text))]
fn put_called(out: &mut Vec<u8>, word: &[u8], call: Call) -> Result<(), AllocError>
    ensures { OnOk result (out.new.items ≡ out.old.items ++ called_text word.now call) }
{
    match call {
        Call::Deliver(line) => {
            out.extend_from_slice(b"deliver ")?;
            put_ends(out, line)
        }
        Call::Run(_) => {
            out.extend_from_slice(b"run ")?;
            out.extend_from_slice(without_leading_zeros(word.get(1..).unwrap_or(b"")))
        }
        Call::Pick(wish) => {
            out.extend_from_slice(b"pick ")?;
            put_ends(out, wish)
        }
    }
}

// The end of the line of a run: how it ended, and its full rounds.
#[tactic(auto, unfolding(crate::specs::Text::ran_line))]
fn put_ran(out: &mut Vec<u8>, ending: Ending, rounds: u64) -> Result<(), AllocError>
    ensures { OnOk result (out.new.items ≡ out.old.items ++ ran_line (ending_of ending) rounds) }
{
    out.extend_from_slice(b": ")?;
    out.extend_from_slice(word_for(ending))?;
    out.extend_from_slice(b", ")?;
    put_number(out, rounds)?;
    out.extend_from_slice(b" rounds")
}

// The end of a line, and a board.
#[tactic(auto, unfolding(model_base::specs::Decimal::newline))]
fn put_rail(out: &mut Vec<u8>, r: &Network) -> Result<(), AllocError>
    ensures { OnOk result (out.new.items ≡ out.old.items ++ (newline ++ board_of (network_of r.now))) }
{
    out.extend_from_slice(b"\n")?;
    put_board(out, r)
}

// What a call came to: the end of its line, and the board that it leaves where it is not rejected.
#[tactic(auto, unfolding(crate::specs::Text::came_text, abt_calls::specs::Abstract::came_of))]
fn put_outcome(out: &mut Vec<u8>, outcome: Outcome, r: &Network) -> Result<(), AllocError>
    ensures { OnOk result (out.new.items ≡ out.old.items ++ came_text (came_of outcome) (network_of r.now)) }
{
    match outcome {
        Outcome::Delivered => put_rail(out, r),
        Outcome::Ran { ending, rounds } => {
            put_ran(out, ending, rounds)?;
            put_rail(out, r)
        }
        Outcome::Served(line) => {
            out.extend_from_slice(b": delivered ")?;
            put_ends(out, line)?;
            put_rail(out, r)
        }
        Outcome::Refused(rejection) => {
            put_number_line(out, b": refused ", u64::from(rejection.number()))
        }
    }
}

// What the last of some calls came to; nothing of no calls.
fn put_last(out: &mut Vec<u8>, played: &Played) -> Result<(), AllocError>
    ensures { OnOk result (out.new.items ≡ out.old.items ++ last_text (option_map came_of played.now.last) (network_of played.now.dispatcher.network)) }
{
    match played.last {
        Some(outcome) => put_outcome(out, outcome, &played.dispatcher.network),
        None => Ok(()),
    }
}

/// Makes the call that a word of the command line says on the dispatcher, and appends what is
/// printed of it to `out`. A word that is no call leaves the dispatcher as it is, and its text is
/// `call not understood: ` and the word. `AllocError` where memory runs out. Equals `call_text` of
/// specs/Text.antt, and `after_word` of specs/Calling.antt for the dispatcher that it leaves.
pub fn put_call(out: &mut Vec<u8>, d: Dispatcher, word: &[u8]) -> Result<Stepped, AllocError>
    ensures text { OnOk result (out.new.items ≡ out.old.items ++ call_text word.now (dispatcher_of d)) }
    ensures after { IfOk result (λ s. dispatcher_of s.dispatcher ≡ after_word (call_in word.now) (dispatcher_of d)) }
    ensures understood { IfOk result (λ s. s.understood ≡ is_some (call_in word.now)) }
    ensures rounds { IfOk result (λ s. RunsAll word.now (dispatcher_of d) (dispatcher_of s.dispatcher)) }
{
    match read_call(word) {
        None => {
            put_not_understood(out, b"call", word)?;
            Ok(Stepped {
                dispatcher: d,
                understood: false,
            })
        }
        Some(call) => {
            put_called(out, word, call)?;
            let played = play(d, &[call]);
            put_last(out, &played)?;
            Ok(Stepped {
                dispatcher: played.dispatcher,
                understood: true,
            })
        }
    }
}
