//! Plays worked cases. Standard input has them as text, a check a line, with what must come of it
//! by docs/RULES.md. Each check that fails is printed with what came instead; at the end stands how
//! many of each kind were made. It stands on `gate_script`, which reads the lines. Start with
//! `checks`.
//!
//! ```text
//! case TITLE             a new case, which its title names
//! slots 2 1 2            a sheet of three agents with these domains and no record
//! ban 1:1 3:2            one more record at the end of its chain: 1:1 with 3:2
//! each 2:1-7 3:1         such a record for each of the values 1 to 7 of agent 2
//! hex 03 01 01 00        more bytes of the sheet as they are
//! zeros 33800            more bytes, all zero
//! start                  the sheet is accepted; what follows is tried on its network, rule 1
//! start 2                the same under rule 2
//! refused 4              the sheet is rejected with this number, and the network is empty
//! refused 11 rule 3      the same under this rule
//! keep                   the network is kept beside, for the next line
//! same                   the network is the same as the one that was kept
//! differs                it is another
//! run plan 5             the run ends so, after so many full rounds of 100,000 allowed
//! run open 1 of 1        the same, with so many allowed
//! taken 2 1 1            the values of the agents, asked one by one, and no further one
//! last 2 1 1             the last values that the agents took
//! deliver 2-3            the head of a channel is delivered
//! deliver 1-2 refused 7  the delivery is rejected with this number
//! line 2-4 holds 8       so many messages wait on a channel
//! line 2-3 holds 1 news of 1  the same, and each of them is an Info of this value
//! ```
#![tactic(auto)]

mod checks;
mod rails;

use abt_words::printing::{Out, Screen};
use checks::{Desk, Found, expected};
use gate_script::kinds::Kind;
use gate_script::lines::{Line, first_line};
use support_cli::Input;

// ---- the tally

// The kinds of checks that are tallied, with what the report says of each.
const SORTS: [(&'static [u8], Kind); 8] = [
    (b"cases ", Kind::Case),
    (b"sheets accepted ", Kind::Start),
    (b"sheets refused ", Kind::Refused),
    (b"runs ", Kind::Run),
    (b"deliveries ", Kind::Deliver),
    (b"rails asked for their slots ", Kind::Taken),
    (b"lines looked at ", Kind::Line),
    (b"rails compared ", Kind::Same),
];

// How many checks of each sort were made, and how many failed. Place k of `made` is that of place k
// of `SORTS`.
#[derive(Clone, Copy)]
struct Tally {
    made: [u64; 8],
    failed: u64,
}

// The sort as which a line is tallied.
fn sort_of(kind: Kind) -> Kind {
    match kind {
        Kind::Differs => Kind::Same,
        Kind::Last => Kind::Taken,
        _ => kind,
    }
}

impl Tally {
    // Counts one check. A line that checks nothing is of none of the sorts.
    fn count(&mut self, kind: Kind) {
        let sort = sort_of(kind);
        for ((_, of), made) in SORTS.iter().zip(&mut self.made) {
            if *of == sort {
                *made = made.saturating_add(1);
            }
        }
    }

    // Prints a line that did not find what it must, with the number that it found. No number is as
    // good as 0: `refused 0` is a sheet, or a delivery, that is accepted.
    fn judge(&mut self, out: Screen, line: Line<'_>, found: Found) -> Screen {
        if let Some(kind) = line.kind {
            self.count(kind);
        }
        let number = found.number.unwrap_or(0);
        if found.right && number == expected(line).unwrap_or(0) {
            return out;
        }
        self.failed = self.failed.saturating_add(1);
        out.put(b"failed: ")
            .put(line.text)
            .line(b", but found ", number)
    }

    // Prints how many checks of each sort were made; none at all is a failure.
    fn report(&self, mut out: Screen) {
        let mut failed = self.failed;
        for ((words, _), made) in SORTS.iter().zip(&self.made) {
            out = out.line(words, *made);
            if *made == 0 {
                failed = 1;
                out = out.put(b"failed: nothing of this kind was checked\n");
            }
        }
        out.number(failed).put(b" failed\n");
    }
}

// ---- the text

// Prints the title of a case.
fn put_title(out: Screen, line: Line<'_>) -> Screen {
    if line.kind == Some(Kind::Case) {
        out.put(line.text).put(b"\n")
    } else {
        out
    }
}

// Follows the text line by line, and prints what came of it.
fn play(out: Screen, text: &[u8]) {
    let mut desk = Desk::new(out);
    let mut tally = Tally {
        made: [0; 8],
        failed: 0,
    };
    for text in text.split_inclusive(|b| *b == b'\n') {
        let line = first_line(text);
        desk.out = put_title(desk.out, line);
        let found = desk.follow(line);
        desk.out = tally.judge(desk.out, line, found);
    }
    tally.report(desk.out);
}

fn main(rt: HostRuntime) {
    let mut text = io::large_buffer();
    let n = Input::new(rt.stdin()).read_full(&mut text);
    play(Out::new(rt.stdout()), &text[..n]);
}
