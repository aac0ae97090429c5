//! The programs by their names. Another program is one arm more.
use crate::shelf::Shelf;
use std::alloc::Global;
use std::io::{Read, Write};
use support_cli::{Input, Output, Status};

/// A command line: where memory comes from, the files there are, the words.
#[derive(Clone, Copy)]
pub struct Command<'a> {
    pub alloc: Global,
    pub files: &'a Shelf,
    pub words: &'a [Vec<u8>],
}

/// Runs the program of this name and returns its status; None where there is no such program.
pub fn run_program<R: Read, W: Write, E: Write>(
    name: &[u8],
    command: &Command<'_>,
    input: &mut Input<R>,
    output: &mut Output<W>,
    errors: &mut Output<E>,
) -> Option<Status> {
    let words = command.words;
    match name {
        b"dock" => Some(abt_cli_dock::dock(input, output, errors)),
        b"board" => Some(abt_cli_board::board(command.alloc, command.files, words, output, errors)),
        b"image" => Some(abt_cli_image::image(command.alloc, command.files, words, output, errors)),
        b"little" => Some(sheet_cli_little::little(words, output, errors)),
        b"turn" => Some(sheet_cli_turn::turn(words, input, output, errors)),
        b"scribe" => Some(sheet_cli_scribe::scribe(words, input, output, errors)),
        b"season" => Some(season_cli::season(words, input, output, errors)),
        _ => None,
    }
}
