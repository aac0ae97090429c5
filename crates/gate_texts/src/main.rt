//! Prints what `dock` and `board` print, for cases that standard input has as text. The lines that
//! name a case and build its sheet are those of `gate_cases`. It stands on `gate_script` and tries
//! `abt_dock_text` and `abt_board_text`. Further lines are
//!
//! ```text
//! dock 100000            what `dock` prints of the sheet, with so many rounds allowed
//! board                  what `board` prints of the sheet
//! board 2                the same by rule 2
//! option --rule          what `board` prints when it has read one word more of its command line,
//!                        up to the file, for which the sheet stands, or behind `--image` an
//!                        image, built byte by byte
//! end                    what it prints where there are no more words
//! word 3-2               what `board` prints of a word of its command line behind the sheet, on
//!                        the network and with the dispatcher that the line before left
//! ```
#![tactic(auto)]

use abt_board_text::options::{Options, goes_on, no_options, opens, option, put_unopened, rule_of};
use abt_board_text::{put_call, put_image, put_start};
use abt_dispatch::Dispatcher;
use gate_script::kinds::Kind;
use gate_script::lines::{Line, first_line};
use gate_script::sheets::{Sheet, blank, with_line};
use std::alloc::{AllocError, Global};
use std::io::Write;
use std::process::ExitCode;
use support_cli::{Output, Status, launch};
use support_rejection::Rejection;

// The sheet of the case under hand, the options read for it, and the dispatcher with its network.
#[derive(Clone, Copy)]
struct Desk {
    sheet: Sheet,
    options: Options,
    dispatcher: Dispatcher,
}

fn put_line(out: &mut Vec<u8>, line: &[u8]) -> Result<(), AllocError> {
    out.extend_from_slice(line)?;
    out.extend_from_slice(b"\n")
}

impl Desk {
    fn new() -> Desk {
        Desk {
            sheet: blank(),
            options: no_options(true),
            dispatcher: abt_dispatch::begin(abt_record::empty()),
        }
    }

    // ---- the programs: what each prints is put behind what `out` holds

    // What `dock` prints of the sheet.
    fn put_dock(&self, out: &mut Vec<u8>, rounds: u64) -> Result<(), AllocError> {
        let mut text = [0u8; 1024];
        let n = abt_dock_text::text(self.sheet.as_bytes(), rounds, &mut text);
        out.extend_from_slice(&text[..n])
    }

    // Keeps the dispatcher that has begun; where that is rejected, one on the empty network.
    fn begin(&mut self, begun: Result<Dispatcher, Rejection>) {
        self.dispatcher = match begun {
            Ok(dispatcher) => dispatcher,
            Err(_) => abt_dispatch::begin(abt_record::empty()),
        };
    }

    // What `board` prints of the sheet by a rule, and the dispatcher that begins there.
    fn begin_sheet(&mut self, out: &mut Vec<u8>, rule: u8) -> Result<(), AllocError> {
        let begun = put_start(out, rule, self.sheet.as_bytes())?;
        self.begin(begun);
        Ok(())
    }

    // The same of the bytes as an image.
    fn begin_image(&mut self, out: &mut Vec<u8>) -> Result<(), AllocError> {
        let begun = put_image(out, self.sheet.as_bytes())?;
        self.begin(begun);
        Ok(())
    }

    fn call(&mut self, out: &mut Vec<u8>, word: &[u8]) -> Result<(), AllocError> {
        let stepped = put_call(out, self.dispatcher, word)?;
        self.dispatcher = stepped.dispatcher;
        Ok(())
    }

    // ---- the words in front of the calls

    // What the words come to. The sheet under hand stands for the file, be it a sheet or an image.
    fn put_words(&mut self, out: &mut Vec<u8>, word: &[u8]) -> Result<(), AllocError> {
        if !opens(self.options) {
            put_unopened(out, self.options, word)
        } else if self.options.image {
            self.begin_image(out)
        } else {
            self.begin_sheet(out, rule_of(self.options))
        }
    }

    // One word more, as long as they are read.
    fn read_word(&mut self, out: &mut Vec<u8>, word: &[u8]) -> Result<(), AllocError> {
        if goes_on(self.options) {
            self.options = option(self.options, word);
            if !goes_on(self.options) {
                return self.put_words(out, word);
            }
        }
        Ok(())
    }

    // No more words.
    fn end_words(&mut self, out: &mut Vec<u8>) -> Result<(), AllocError> {
        if goes_on(self.options) {
            self.put_words(out, b"")
        } else {
            Ok(())
        }
    }

    // ---- the text

    // Follows a line, which builds on the sheet, or prints something. A case begins with no
    // options; its line, and one that is not understood, is printed as it stands.
    fn follow(&mut self, out: &mut Vec<u8>, line: Line<'_>) -> Result<(), AllocError> {
        let Line {
            kind,
            numbers,
            text,
        } = line;
        self.sheet = with_line(self.sheet, line);
        match kind {
            None => put_line(out, text),
            Some(Kind::Case) => {
                self.options = no_options(true);
                put_line(out, text)
            }
            Some(Kind::Dock) => self.put_dock(out, numbers.values[0]),
            Some(Kind::Board) => {
                let rule = numbers.get(0).map_or(1, |k| (k % 256) as u8);
                self.begin_sheet(out, rule)
            }
            Some(Kind::Word) => self.call(out, text.get(5..).unwrap_or(text)),
            Some(Kind::OptionWord) => self.read_word(out, text.get(7..).unwrap_or(text)),
            Some(Kind::End) => self.end_words(out),
            _ => Ok(()),
        }
    }
}

// Follows the text line by line, as long as what it prints can be written.
fn play<W: Write>(
    alloc: Global,
    text: &[u8],
    output: &mut Output<W>,
) -> Result<Status, AllocError> {
    let mut desk = Desk::new();
    for line in text.split_inclusive(|b| *b == b'\n') {
        if output.has_failed() {
            return Ok(Status::NotWritten);
        }
        let mut said = Vec::new(alloc);
        desk.follow(&mut said, first_line(line))?;
        output.put(&said);
    }
    Ok(Status::Done)
}

fn main(rt: HostRuntime) -> ExitCode {
    launch(&rt, |_, input, output, _| {
        let mut text = io::large_buffer();
        let n = input.read_full(&mut text);
        play(rt.alloc(), &text[..n], output).unwrap_or(Status::NotUnderstood)
    })
}
