//! Tries texts and sheets there and back. Standard input has worked texts, each in front of a line
//! that begins with `=` and names it; with `=-` the text has no newline at its end. The name is
//! printed, and what `scribe sheet` answers: the line on standard error; or the sheet's length and
//! bytes, eight on a line, and what `scribe text` answers of it. Long texts are built and printed
//! likewise. Then come random sheets and their texts, whole and damaged: every failure is printed,
//! and at the end how many of each kind there are. It tries `sheet_text_reader` and
//! `sheet_text_writer`. Start with `printing`, then `random`.
#![tactic(auto)]

mod long;
mod printing;
mod random;
mod tallies;

use abt_words::printing::{Out, Screen};
use gate_script::lines::{line_end, next_line};
use long::put_longs;
use printing::put_answer;
use random::try_randoms;
use support_cli::Input;
use tallies::Tally;

// What is answered of the text in front of this line.
fn put_case(o: Screen, text: &[u8], name: &[u8]) -> Screen {
    let named = o.put(name).put(b"\n");
    match text {
        [front @ .., _] if name.starts_with(b"=-") => put_answer(named, front),
        _ => put_answer(named, text),
    }
}

fn put_cases(out: Screen, all: &[u8]) -> Screen {
    let mut o = out;
    let mut begin: usize = 0;
    let mut at: usize = 0;
    // A text is all lines since the last name.
    while at < all.len() {
        let end = line_end(all, at);
        let next = next_line(end, all.len());
        if all[at] == b'=' {
            o = put_case(o, &all[begin..at], &all[at..end]);
            begin = next;
        }
        at = next;
    }
    o
}

fn main(rt: HostRuntime) {
    let mut text = io::large_buffer();
    let n = Input::new(rt.stdin()).read_full(&mut text);
    let mut tally = Tally::new(put_longs(put_cases(Out::new(rt.stdout()), &text[..n])));
    try_randoms(&mut tally);
    tally.report();
}
