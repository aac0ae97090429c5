//! The program `board`: steps a network call by call and draws it,
//! `board [--rule N] SHEET [CALL ..]` or `board --image IMAGE [CALL ..]`. A thin `main` over
//! `abt_cli_board::board`; start there.
//! docs/PROGRAMS.md, 'The board and the image on the command line'.
#![tactic(auto)]

use std::process::ExitCode;
use support_cli::{SystemFiles, launch};

fn main(rt: HostRuntime) -> ExitCode {
    launch(&rt, |words, _, output, errors| {
        abt_cli_board::board(rt.alloc(), &SystemFiles::new(&rt), words, output, errors)
    })
}
