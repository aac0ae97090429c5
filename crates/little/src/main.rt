//! The program `little`: writes one of the little sheets, by its ordinal, on standard output,
//! `little N`. A thin `main` over `sheet_cli_little::little`; start there.
//! docs/PROGRAMS.md, 'All the little sheets'.
#![tactic(auto)]

use std::process::ExitCode;
use support_cli::launch;

fn main(rt: HostRuntime) -> ExitCode {
    launch(&rt, |words, _, output, errors| {
        sheet_cli_little::little(words, output, errors)
    })
}
