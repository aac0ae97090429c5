//! Prints what `season` prints, for streams that standard input has as text. The lines that name a
//! case and build a sheet are those of `gate_cases`. It stands on `gate_script` and tries
//! `season_text`. Further lines are
//!
//! ```text
//! add                    the sheet goes onto the stream, behind its length
//! raw                    its bytes go onto the stream as they are
//! all                    all the little sheets go onto the stream
//! season                 what `season` prints of the stream; the next one is empty
//! ```
//!
//! A stream holds 524,288 bytes. What does not fit is left out.
#![tactic(auto)]

use abt_words::printing::{Out, Screen};
use gate_script::kinds::Kind;
use gate_script::lines::{Line, first_line};
use gate_script::sheets::{Sheet, blank, with_line};
use sheet_little::little;
use std::alloc::{AllocError, Global};
use support_cli::Input;

// ---- the stream

// The most bytes that a stream holds: room for all the little sheets.
const ROOM: usize = 524288;

// Adds bytes, if there is room; else the stream stays.
fn add(stream: &mut Vec<u8>, bytes: &[u8]) -> Result<(), AllocError> {
    if ROOM.saturating_sub(stream.len()) < bytes.len() {
        return Ok(());
    }
    stream.extend_from_slice(bytes)
}

// Adds a sheet behind its length.
fn add_framed(stream: &mut Vec<u8>, sheet: &[u8]) -> Result<(), AllocError> {
    let n = (sheet.len() % 65536) as u16;
    add(stream, &n.to_le_bytes())?;
    add(stream, sheet)
}

fn add_little_sheets(stream: &mut Vec<u8>) -> Result<(), AllocError> {
    for ordinal in 0..4996 {
        let mut sheet = [0u8; 120];
        if let Ok(n) = little(ordinal, &mut sheet) {
            add_framed(stream, &sheet[..n])?;
        }
    }
    Ok(())
}

// ---- the text

// The sheet of the case under hand, the stream, and what is printed.
#[derive(Drop)]
struct Desk {
    sheet: Sheet,
    stream: Vec<u8>,
    out: Screen,
}

impl Desk {
    fn new(alloc: Global, out: Screen) -> Desk {
        Desk {
            sheet: blank(),
            stream: Vec::new(alloc),
            out,
        }
    }

    fn put_season(&mut self) {
        let mut text = [0u8; 512];
        let n = season_text::stream_text(&self.stream, &mut text);
        self.out = self.out.put(&text[..n]);
        self.stream.clear();
    }

    // Follows a line. It builds a sheet, or ends it: the sheet goes onto the stream, or the stream
    // is closed, and the next sheet is a blank one. A line that names a case, or is not understood,
    // is printed as it stands.
    fn follow(&mut self, line: Line<'_>) -> Result<(), AllocError> {
        match line.kind {
            Some(Kind::Add) => add_framed(&mut self.stream, self.sheet.as_bytes())?,
            Some(Kind::Raw) => add(&mut self.stream, self.sheet.as_bytes())?,
            Some(Kind::All) => add_little_sheets(&mut self.stream)?,
            Some(Kind::Season) => self.put_season(),
            Some(Kind::Case) | None => self.out = self.out.put(line.text).put(b"\n"),
            _ => {}
        }
        self.sheet = match line.kind {
            Some(Kind::Add | Kind::Raw | Kind::All | Kind::Season) => blank(),
            _ => with_line(self.sheet, line),
        };
        Ok(())
    }
}

// Follows the text line by line, as long as what it prints can be written.
fn play(alloc: Global, out: Screen, text: &[u8]) -> Result<(), AllocError> {
    let mut desk = Desk::new(alloc, out);
    for line in text.split_inclusive(|b| *b == b'\n') {
        if desk.out.has_failed() {
            break;
        }
        desk.follow(first_line(line))?;
    }
    Ok(())
}

fn main(rt: HostRuntime) -> Result<(), AllocError> {
    let mut text = io::large_buffer();
    let n = Input::new(rt.stdin()).read_full(&mut text);
    play(rt.alloc(), Out::new(rt.stdout()), &text[..n])
}
