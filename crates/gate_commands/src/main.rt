//! Runs the programs' functions on command lines, inputs and outputs that standard input has as
//! text, and prints what each did. It stands on the crates of the command-line programs. Start with
//! `programs`, then `cases`. A line is
//!
//! ```text
//! case TEXT              printed as it stands
//! word TEXT              one word more on the command line; it may be empty, and may have blanks
//! text TEXT              the input grows by these letters and the end of a line
//! hex DIGITS             the input grows by these bytes
//! zeros N                and by so many zero bytes, at most 100,000
//! file NAME              the input so far is the file of this name, and the input begins anew
//! reader STEP [MOST]     the input is read by at most STEP bytes a time, and fails behind MOST
//! output STEP [MOST]     so is standard output written
//! errors STEP [MOST]     and standard error
//! run PROGRAM            the program runs; its status, what it wrote and how much of the input
//!                        is left are printed; the next case begins
//! ```
//!
//! Each read and each write is interrupted once before it goes through.
#![tactic(auto)]

mod cases;
mod ends;
mod programs;
mod shelf;
mod telling;

use cases::play;
use std::process::ExitCode;
use support_cli::{Input, Output, Status};

// The text of the cases is shorter than this.
const ROOM: usize = 262144;

fn main(rt: HostRuntime) -> ExitCode {
    let mut text = [0u8; ROOM];
    let count = Input::new(rt.stdin()).read_full(&mut text);
    let mut output = Output::new(rt.stdout());
    match play(rt.alloc(), &text[..count], &mut output) {
        Ok(()) => ExitCode::SUCCESS,
        Err(_) => ExitCode::from(Status::NotUnderstood.code()),
    }
}
