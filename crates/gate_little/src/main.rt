//! Makes all the little sheets and has the agents settle each, by rule 1 with 100,000 rounds. Each
//! must be good by a second reading too and say another problem than those before; each plan must
//! obey the bans, and where a run says `none` the search must find nothing. A buffer that is one
//! byte short, and an ordinal behind the last, must be rejected, and the buffer stay as it was.
//! Every failure is printed; at the end stands how many of each kind there are. It tries
//! `sheet_little` and `abt` by `gate_second_reading`.
#![tactic(auto)]

mod tallies;

use abt_engine::Ending;
use abt_record::Network;
use abt_words::printing::Out;
use gate_second_reading::assigned::assigned_choice;
use gate_second_reading::buffers::{MARK, untouched};
use gate_second_reading::reading::Sheet;
use sheet_little::little;
use std::alloc::AllocError;
use std::collections::BTreeSet;
use support_rejection::Rejection;
use tallies::{Tally, count_scanners};

// The problems met so far: of each how many agents, their domains and the bans.
type Problems = BTreeSet<(u8, [u8; 12], [u64; 66])>;

// Tries how a run on the network ends: right where a plan settles the sheet, and where the search
// finds nothing for `none`.
fn try_run(t: &mut Tally, rail: Network, sheet: Sheet, ordinal: u64) {
    let ran = abt::run(rail, 100000);
    t.most_rounds.raise(ran.rounds);
    t.sum_of_rounds.add(ran.rounds);
    match ran.ending {
        Ending::Plan => {
            count_scanners(&mut t.plans, rail.count);
            let right = sheet.settles(assigned_choice(ran.network));
            t.judge(ordinal, right, b"a plan that breaks a ban");
        }
        Ending::Unsolvable => {
            count_scanners(&mut t.nones, rail.count);
            t.judge(ordinal, !sheet.solvable(), b"none, where there is a plan");
        }
        Ending::Jammed => t.judge(ordinal, false, b"jammed"),
        Ending::Open => t.judge(ordinal, false, b"open"),
        Ending::Broken => t.judge(ordinal, false, b"a start out of shape"),
    }
}

// Up to three scanners with one slot or two, as all little sheets have.
fn is_little(rail: &Network) -> bool {
    rail.count <= 3 && rail.domains.iter().all(|d| *d <= 2)
}

fn try_sheet(
    t: &mut Tally,
    seen: &mut Problems,
    sheet: Sheet,
    ordinal: u64,
) -> Result<(), AllocError> {
    let started = abt_start::start(1, sheet.bytes);
    t.judge(
        ordinal,
        started.is_ok() && sheet.fault().is_none(),
        b"refused",
    );
    if let Ok(rail) = started {
        let new = seen.insert((rail.count, rail.domains, rail.bans))?;
        if new {
            t.different.add(1);
        }
        t.judge(ordinal, new, b"a problem that was met before");
        t.judge(ordinal, is_little(&rail), b"no little problem");
        try_run(t, rail, sheet, ordinal);
    }
    Ok(())
}

// ---- writing

// Writing into this buffer is rejected so, and leaves it as it was.
fn is_refused(out: &mut [u8], ordinal: u64, rejection: Rejection) -> bool {
    little(ordinal, out) == Err(rejection) && untouched(out, 0)
}

// Writes a sheet into a buffer with room, and then into one of one byte less than it takes.
fn try_little(t: &mut Tally, seen: &mut Problems, ordinal: u64) -> Result<(), AllocError> {
    let mut buffer = [MARK; 136];
    let written = little(ordinal, &mut buffer);
    let n = written.unwrap_or(0);
    t.judge(
        ordinal,
        written.is_ok() && untouched(&buffer, n),
        b"not written",
    );
    try_sheet(
        t,
        seen,
        Sheet {
            bytes: &buffer[..n],
        },
        ordinal,
    )?;
    let mut short = [MARK; 136];
    let right = 0 < n && is_refused(&mut short[..n - 1], ordinal, Rejection::ShortBuffer);
    if right {
        t.short.add(1);
    }
    t.judge(ordinal, right, b"one byte short");
    Ok(())
}

// Tries an ordinal behind the last one.
fn try_behind(t: &mut Tally, ordinal: u64) {
    let mut buffer = [MARK; 136];
    let right = is_refused(&mut buffer, ordinal, Rejection::BadOrdinal);
    t.judge(ordinal, right, b"not refused with 14");
}

fn main(rt: HostRuntime) -> Result<(), AllocError> {
    let mut seen = BTreeSet::new(rt.alloc());
    let mut t = Tally::new(Out::new(rt.stdout()));
    for ordinal in 0..4996 {
        try_little(&mut t, &mut seen, ordinal)?;
    }
    for ordinal in [4996, u64::MAX] {
        try_behind(&mut t, ordinal);
    }
    t.report();
    Ok(())
}
