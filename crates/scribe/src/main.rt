//! The program `scribe`: writes the sheet of a text on standard input, or the text of a sheet, on
//! standard output, `scribe sheet` or `scribe text`. A thin `main` over `sheet_cli_scribe::scribe`;
//! start there. docs/PROGRAMS.md, 'scribe'.
#![tactic(auto)]

use std::process::ExitCode;
use support_cli::launch;

fn main(rt: HostRuntime) -> ExitCode {
    launch(&rt, |words, input, output, errors| {
        sheet_cli_scribe::scribe(words, input, output, errors)
    })
}
