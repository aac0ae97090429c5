//! The program `season`: prints the figures of a stream of sheets on standard input,
//! `season [--progress] < STREAM`. A thin `main` over `season_cli::season`; start there.
//! docs/PROGRAMS.md, 'A season's figures'.
#![tactic(auto)]

use std::process::ExitCode;
use support_cli::launch;

fn main(rt: HostRuntime) -> ExitCode {
    launch(&rt, |words, input, output, errors| {
        season_cli::season(words, input, output, errors)
    })
}
