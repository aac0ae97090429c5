//! The program `image`: writes the image of the network that calls on a sheet leave,
//! `image write [--rule N] [--small] SHEET [CALL ..]`, or the other form of an image,
//! `image move IMAGE`. A thin `main` over `abt_cli_image::image`; start there.
//! docs/PROGRAMS.md, 'The board and the image on the command line'.
#![tactic(auto)]

use std::process::ExitCode;
use support_cli::{SystemFiles, launch};

fn main(rt: HostRuntime) -> ExitCode {
    launch(&rt, |words, _, output, errors| {
        abt_cli_image::image(rt.alloc(), &SystemFiles::new(&rt), words, output, errors)
    })
}
