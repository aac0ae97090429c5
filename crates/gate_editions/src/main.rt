//! Turns all the little sheets into gaps, random sheets into the other edition, and the longest
//! sheet there is, and all of them back and forth again. What is written must be good by a second
//! reading, and ban what was banned; there and back a second time must give the same bytes. A
//! little sheet must come back as it was. A rejection must have the number that a second reading
//! gives, and leave the buffer as it was. Every failure is printed; at the end stands how many of
//! each kind there are. It tries `sheet_editions` by `gate_second_reading`. Start with `comparing`.
#![tactic(auto)]

ghost use Rattle.support_buffer.specs.Abstract.{InBuffer};

mod comparing;
mod full;
mod tallies;

use abt_words::printing::Out;
use comparing::{Said, unmixed};
use full::all_gaps;
use gate_random::drafts::random_draft;
use gate_random::draws::next;
use gate_second_reading::buffers::{MARK, untouched};
use gate_second_reading::reading::{Sheet, byte};
use sheet_editions::{to_bans, to_gaps};
use sheet_little::little;
use support_rejection::Rejection;
use tallies::{Kind, Tally};

// The longest sheet has so many bytes.
const LONGEST: usize = 33816;

// ---- turning

// A sheet's edition, by the second reading alone.
#[derive(Clone, Copy)]
enum Edition {
    Bans,
    Gaps,
}

impl Edition {
    // The sheet's edition; bans, where a sheet has neither.
    fn of(s: &[u8]) -> Edition {
        if (Sheet { bytes: s }).of_gaps() {
            Edition::Gaps
        } else {
            Edition::Bans
        }
    }

    fn other(self) -> Edition {
        match self {
            Edition::Bans => Edition::Gaps,
            Edition::Gaps => Edition::Bans,
        }
    }
}

// Turns s into a sheet of this edition.
fn into(edition: Edition, s: &[u8], out: &mut [u8]) -> Result<usize, Rejection>
    ensures { InBuffer result out.new }
{
    match edition {
        Edition::Bans => to_bans(s, out),
        Edition::Gaps => to_gaps(s, out),
    }
}

// Turns s into the edition that it does not have, or into gaps where it has neither.
fn turn(s: &[u8], out: &mut [u8]) -> Result<usize, Rejection>
    ensures { InBuffer result out.new }
{
    into(Edition::of(s).other(), s, out)
}

// ---- what was written

// Turning s gives the bytes of t, and leaves those behind them.
fn gives(s: &[u8], t: &[u8]) -> bool {
    let mut buffer = [MARK; LONGEST];
    match turn(s, &mut buffer) {
        Ok(n) => untouched(&buffer, n) && &buffer[..n] == t,
        Err(_) => false,
    }
}

// It is a good sheet, and says the same as the other one.
fn says_again(sheet: Sheet, other: Sheet) -> bool {
    sheet.fault().is_none() && Said::of(sheet) == Said::of(other)
}

// The sheet t turned back says the same, and forth again is t.
fn comes_back(t: &[u8]) -> bool {
    let mut buffer = [MARK; LONGEST];
    match turn(t, &mut buffer) {
        Ok(n) => {
            let u = &buffer[..n];
            says_again(Sheet { bytes: u }, Sheet { bytes: t }) && gives(u, t)
        }
        Err(_) => false,
    }
}

// Turning s into one byte less than n is rejected: the buffer is short.
fn short_refused(s: &[u8], n: usize) -> bool {
    0 < n && refused(s, n - 1) == Some(Rejection::ShortBuffer)
}

// s was turned into t.
fn is_right(s: &[u8], t: &[u8]) -> bool {
    says_again(Sheet { bytes: t }, Sheet { bytes: s })
        && usize::from(byte(s, 1)) + usize::from(byte(t, 1)) == 3
        && comes_back(t)
        && short_refused(s, t.len())
}

// ---- what was rejected

// The rejection, where the buffer is as it was.
fn left(turned: Result<usize, Rejection>, out: &[u8]) -> Option<Rejection> {
    match turned {
        Err(rejection) if untouched(out, 0) => Some(rejection),
        _ => None,
    }
}

// Why turning s is rejected, in a buffer of n bytes.
fn refused(s: &[u8], n: usize) -> Option<Rejection> {
    let mut buffer = [MARK; LONGEST];
    if LONGEST < n {
        return None;
    }
    let out = &mut buffer[..n];
    left(turn(s, out), out)
}

// It is not sayable in gaps, and that comes before a short buffer.
fn is_mixed(s: &[u8]) -> bool {
    let rejection = Some(Rejection::NotSayable);
    byte(s, 1) == 1
        && !unmixed(Sheet { bytes: s })
        && refused(s, LONGEST) == rejection
        && refused(s, 0) == rejection
}

// Turning s into its own edition is rejected for its header, behind a length under 24.
fn own_refused(s: &[u8]) -> bool {
    let mut buffer = [MARK; LONGEST];
    let rejection = if s.len() < 24 {
        Rejection::BadLength
    } else {
        Rejection::BadHeader
    };
    left(into(Edition::of(s), s, &mut buffer), &buffer) == Some(rejection)
}

// ---- sheets tried

// Tries a little sheet; where it is turned, it comes back as it was.
fn with_little(tally: Tally, ordinal: u64) -> Tally {
    let mut given = [MARK; 136];
    let Ok(m) = little(ordinal, &mut given) else {
        return tally.judged(Kind::LittleGaps, false, b"little, none", ordinal);
    };
    let s = &given[..m];
    let mut buffer = [MARK; LONGEST];
    match turn(s, &mut buffer) {
        Ok(n) => {
            let u = &buffer[..n];
            let right = unmixed(Sheet { bytes: s }) && is_right(s, u) && gives(u, s);
            tally.judged(Kind::LittleGaps, right, b"little, turned", ordinal)
        }
        Err(Rejection::NotSayable) => {
            tally.judged(Kind::LittleMixed, is_mixed(s), b"little, refused", ordinal)
        }
        Err(_) => tally.judged(Kind::LittleGaps, false, b"little, turned", ordinal),
    }
}

// Tries a sheet that is good.
fn with_good(tally: Tally, s: &[u8], tried: u64) -> Tally {
    let mut buffer = [MARK; LONGEST];
    let kind = match Edition::of(s) {
        Edition::Bans => Kind::Gaps,
        Edition::Gaps => Kind::Bans,
    };
    match turn(s, &mut buffer) {
        Ok(n) => {
            let right = unmixed(Sheet { bytes: s }) && is_right(s, &buffer[..n]);
            tally.judged(kind, right, b"random, turned", tried)
        }
        Err(Rejection::NotSayable) => {
            tally.judged(Kind::Mixed, is_mixed(s), b"random, refused with 15", tried)
        }
        Err(_) => tally.judged(kind, false, b"random, turned", tried),
    }
}

fn with_sheet(tally: Tally, s: &[u8], tried: u64) -> Tally {
    if !own_refused(s) {
        return tally.judged(Kind::Refused, false, b"its own edition", tried);
    }
    match (Sheet { bytes: s }).fault() {
        None => with_good(tally, s, tried),
        Some(fault) => {
            let right = matches!(refused(s, LONGEST), Some(r) if r.number() == fault.number());
            tally.judged(Kind::Refused, right, b"random, refused", tried)
        }
    }
}

// Tries the sheet of every gap between twelve agents: its ban sheet has 4,224 records, the most
// there can be.
fn with_longest(tally: Tally) -> Tally {
    let bytes = all_gaps();
    let mut buffer = [MARK; LONGEST];
    let right = to_bans(&bytes, &mut buffer) == Ok(LONGEST)
        && is_right(&bytes, &buffer)
        && gives(&buffer, &bytes);
    tally.judged(Kind::Long, right, b"the longest", 0)
}

fn with_littles(mut tally: Tally) -> Tally {
    for ordinal in 0..4996 {
        tally = with_little(tally, ordinal);
    }
    tally
}

fn with_randoms(mut tally: Tally) -> Tally {
    let mut state = 2026;
    for _ in 0..10000 {
        tally = with_sheet(tally, random_draft(state).sheet(), state);
        state = next(state);
    }
    tally
}

fn main(rt: HostRuntime) {
    let tally = Tally::new(Out::new(rt.stdout()));
    with_randoms(with_littles(with_longest(tally))).report();
}
