//! The program `turn`: turns a sheet on standard input into one of the other edition on standard
//! output, `turn bans` or `turn gaps`. A thin `main` over `sheet_cli_turn::turn`; start there.
//! docs/PROGRAMS.md, 'turn'.
#![tactic(auto)]

use std::process::ExitCode;
use support_cli::launch;

fn main(rt: HostRuntime) -> ExitCode {
    launch(&rt, |words, input, output, errors| {
        sheet_cli_turn::turn(words, input, output, errors)
    })
}
