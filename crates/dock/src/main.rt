//! The program `dock`: reads a sheet on standard input, has the agents solve it and prints what
//! they come to. A thin `main` over `abt_cli_dock::dock`; start there. docs/PROGRAMS.md, 'dock'.
#![tactic(auto)]

use std::process::ExitCode;
use support_cli::launch;

fn main(rt: HostRuntime) -> ExitCode {
    launch(&rt, |_, input, output, errors| {
        abt_cli_dock::dock(input, output, errors)
    })
}
