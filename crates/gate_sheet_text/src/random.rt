//! Random sheets, good and bad, and their texts, whole and damaged.
ghost use Rattle.std.specs.Prelude.{◌≤◌, ◌<◌};

use crate::printing::start_of;
use crate::tallies::{Kind, Tally};
use gate_random::drafts::random_draft;
use gate_random::draws::{next, pick};
use gate_second_reading::buffers::{MARK, untouched};
use gate_second_reading::reading::{Sheet, SheetRejection};
use sheet_text_reader::{TextRejection, read_sheet};
use sheet_text_writer::write_text;
use support_rejection::Rejection;

// The longest sheet and the longest text have so many bytes.
const SHEET: usize = 33816;

const TEXT: usize = 67614;

// ---- what a text gives

// What is wrong with a sheet, by a second reading.
fn fault(s: &[u8]) -> Option<SheetRejection> {
    Sheet { bytes: s }.fault()
}

// Two bytes, little-endian, and 0 beyond the end: it leads on to nothing, as an index 0 does.
fn index_at(s: &[u8], k: usize) -> u16 {
    match s.get(k..) {
        Some([low, high, ..]) => u16::from_le_bytes([*low, *high]),
        _ => 0,
    }
}

// Where record r begins.
fn record_at(r: u16) -> usize
    ensures { result < 600000 }
{
    16 + 8 * usize::from(r)
}

// The records of t in their order are those on the chain of s, and no more: four bytes of each say
// what it says, and two lead on.
fn same_records(s: &[u8], t: &[u8]) -> bool {
    let mut r = index_at(s, 2);
    for record in t[24.min(t.len())..].chunks(8) {
        let at = record_at(r);
        if s.get(at..at + 4) != record.get(..4) {
            return false;
        }
        r = index_at(s, at + 4);
    }
    r == 0
}

// n and the domains are the same; the edition too, but for a sheet without records. The first index
// of t is its own.
fn same_header(s: &[u8], t: &[u8]) -> bool {
    if s.len() < 24 || t.len() < 24 {
        return false;
    }
    let edition = if t.len() == 24 { 1 } else { s[1] };
    s[0] == t[0] && s[8..20] == t[8..20] && edition == t[1]
}

// What is put into a buffer of N bytes is this, and what stands behind it is left.
fn puts<const N: usize, F: FnOnce(&mut [u8]) -> Option<usize>>(put: F, wanted: &[u8]) -> bool
    requires { (N ≤ TEXT) × F.IsAlwaysCallable put }
{
    let mut buffer = [MARK; N];
    match put(&mut buffer) {
        Some(n) => untouched(&buffer, n) && start_of(&buffer, n) == wanted,
        None => false,
    }
}

// This buffer is too short for it.
fn reads_not(text: &[u8], out: &mut [u8]) -> bool {
    matches!(
        read_sheet(text, out),
        Err(TextRejection::Refused(Rejection::ShortBuffer))
    ) && untouched(out, 0)
}

// One byte less than n has no room for it.
fn too_short(text: &[u8], n: usize) -> bool {
    let mut buffer = [MARK; SHEET];
    0 < n && n <= SHEET && reads_not(text, &mut buffer[..n - 1])
}

// ---- what a sheet is told as

// Why the sheet has no text in a buffer of n bytes, which is left as it was.
fn refusal_of(s: &[u8], n: usize) -> Option<Rejection> {
    let mut buffer = [MARK; TEXT];
    let out = buffer.get_mut(..n)?;
    let rejection = write_text(s, out).err()?;
    if untouched(out, 0) {
        Some(rejection)
    } else {
        None
    }
}

// ---- there and back

// The text of s gives a sheet that says the same and has the same text.
fn comes_back(s: &[u8], text: &[u8]) -> bool {
    let mut buffer = [MARK; SHEET];
    let Ok(n) = read_sheet(text, &mut buffer) else {
        return false;
    };
    let t = start_of(&buffer, n);
    fault(t).is_none()
        && same_header(s, t)
        && same_records(s, t)
        && puts::<TEXT, _>(|out| write_text(t, out).ok(), text)
        && too_short(text, n)
}

// A text that gives a sheet gives it again, when it is told by it.
fn told_again(t: &[u8]) -> bool {
    let mut buffer = [MARK; TEXT];
    match write_text(t, &mut buffer) {
        Ok(n) => puts::<SHEET, _>(|out| read_sheet(start_of(&buffer, n), out).ok(), t),
        Err(_) => false,
    }
}

// Any text: a fault, and nothing is written; or a good sheet.
fn reads_well(text: &[u8]) -> bool {
    let mut buffer = [MARK; SHEET];
    match read_sheet(text, &mut buffer) {
        Ok(n) => {
            let t = start_of(&buffer, n);
            fault(t).is_none() && told_again(t)
        }
        Err(TextRejection::RejectedLine(faulty)) => 0 < faulty.line && untouched(&buffer, 0),
        Err(TextRejection::Refused(_)) => false,
    }
}

// ---- what is tried

// One byte of the text becomes another one.
fn damage(text: &mut [u8], n: usize, state: u64) {
    let marks = b"0123456789 :-#\n\t\rslotbangp=";
    let k = pick(state, n);
    if k < text.len() {
        text[k] = marks[pick(next(state), 27)];
    }
}

// A good sheet: its text, then that text damaged.
fn try_good(t: &mut Tally, s: &[u8], state: u64) {
    let mut text = [MARK; TEXT];
    let told = write_text(s, &mut text);
    let n = told.unwrap_or(0);
    let right = told.is_ok() && untouched(&text, n) && comes_back(s, start_of(&text, n));
    let short = 0 < n && refusal_of(s, n - 1) == Some(Rejection::ShortBuffer);
    t.judge(Kind::Told, right && short, b"a good sheet", state);
    damage(&mut text, n, state);
    let read = reads_well(start_of(&text, n));
    t.judge(Kind::Damaged, read, b"a damaged text", state);
}

// A bad one, which is also garbage for a text.
fn try_bad(t: &mut Tally, s: &[u8], fault: SheetRejection, state: u64) {
    let right = [0, TEXT].iter().all(|n| match refusal_of(s, *n) {
        Some(rejection) => rejection.number() == fault.number(),
        None => false,
    });
    t.judge(Kind::Refused, right, b"a bad sheet", state);
    t.judge(Kind::Damaged, reads_well(s), b"garbage", state);
}

fn try_drawn(t: &mut Tally, state: u64) {
    let d = random_draft(state);
    let s = d.sheet();
    match fault(s) {
        None => try_good(t, s, state),
        Some(fault) => try_bad(t, s, fault, state),
    }
}

/// Tries 10,000 random sheets, from a fixed seed.
pub fn try_randoms(t: &mut Tally) {
    let mut state: u64 = 2026;
    for _ in 0..10000 {
        try_drawn(t, state);
        state = next(state);
    }
}
