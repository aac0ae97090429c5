//! Random sheets of every kind: both editions, chains out of order, spare records, bans that stand
//! twice, damaged ones.
ghost use Rattle.std.specs.Prelude.{◌≡◌, ◌+◌, ◌-◌, ◌≤◌, ◌<◌, length, take};

use crate::draws::{next, pick};
use gate_second_reading::reading::byte;

/// A sheet that was drawn, in a room of 1,024 bytes, and the generator's state behind it.
#[derive(Clone, Copy)]
pub struct Draft {
    bytes: [u8; 1024],
    length: usize,
    pub state: u64,
    ghost fits: { length ≤ 1024 },
}

impl Draft {
    /// The bytes of the sheet, at most 1,024.
    pub fn sheet(&self) -> &[u8]
        ensures bytes { result.now ≡ take self.now.length self.now.bytes }
        ensures fits { length result.now ≤ 1024 }
    {
        &self.bytes[..self.length]
    }
}

// A sheet that is being drawn: its bytes, which records are on its chain, and the generator's
// state.
#[derive(Clone, Copy)]
struct Drawing {
    bytes: [u8; 1024],
    chained: [bool; 128],
    state: u64,
}

impl Drawing {
    fn blank(state: u64) -> Drawing {
        Drawing {
            bytes: [0; 1024],
            chained: [false; 128],
            state,
        }
    }

    // ---- bytes

    // Moves the generator on, and picks a number.
    fn pick(&mut self, below: usize) -> usize
        ensures { result ≤ below - 1 }
    {
        self.state = next(self.state);
        pick(self.state, below)
    }

    fn byte(&self, at: usize) -> usize
        ensures { result < 256 }
    {
        usize::from(byte(&self.bytes, at))
    }

    fn set_byte(&mut self, at: usize, b: usize) {
        if at < 1024 {
            self.bytes[at] = (b % 256) as u8;
        }
    }

    // Two bytes, little-endian.
    fn set_word(&mut self, at: usize, word: usize) {
        if at < 1024 {
            self.set_byte(at, word);
            self.set_byte(at + 1, word / 256);
        }
    }

    // ---- the header

    // Each agent gets 1 to `most` values.
    fn set_scanners(&mut self, n: usize, most: usize)
        requires { n ≤ 12 }
    {
        self.set_byte(0, n);
        self.set_byte(1, 1);
        for i in 0..n {
            let slots = 1 + self.pick(most) % 8;
            self.set_byte(8 + i, slots);
        }
    }

    // A header. Half of the sheets with up to six agents have no more than three values each.
    fn headed(state: u64) -> Drawing {
        let mut d = Drawing::blank(state);
        let scanners = most_scanners(d.pick(4));
        let n = 1 + d.pick(scanners);
        let few = d.pick(2) == 0;
        let most = if n <= 6 && few { 3 } else { most_slots(n) };
        d.set_scanners(n, most);
        d
    }

    // One sheet in three bans gaps.
    fn set_edition(&mut self) {
        if self.pick(3) == 0 {
            self.set_byte(1, 2);
        }
    }

    // ---- the records

    // Two agents, the higher behind the lower, for the record that begins here.
    fn set_pair(&mut self, at: usize)
        requires { at ≤ 976 }
    {
        let n = self.byte(0);
        if n >= 2 {
            let lower = 1 + self.pick(n - 1);
            let higher = lower + 1 + self.pick(n - lower);
            self.set_byte(at, lower);
            self.set_byte(at + 1, higher);
        }
    }

    // A value for the agent that is named at `at`, two bytes behind it.
    fn set_slot(&mut self, at: usize)
        requires { at ≤ 977 }
    {
        let scanner = self.byte(at);
        let slots = self.byte(7 + scanner);
        let slot = 1 + self.pick(slots);
        self.set_byte(at + 2, slot);
    }

    // A least gap and a greatest one, up to three above it: 0 to 14 stand for -7 to 7, and a byte
    // is 7 less. No gap is above 7, for which 14 stands.
    fn set_gaps(&mut self, at: usize)
        requires { at ≤ 976 }
    {
        let least = self.pick(15);
        let greatest = (least + self.pick(4)).min(14);
        self.set_byte(at + 2, 249 + least);
        self.set_byte(at + 3, 249 + greatest);
    }

    // Record r bans a value of one agent with a value of another, higher one, or gaps between them.
    fn set_ban(&mut self, r: usize) {
        let at = record_at(r);
        self.set_pair(at);
        if self.byte(1) == 2 {
            self.set_gaps(at);
        } else {
            self.set_slot(at);
            self.set_slot(at + 1);
        }
    }

    // Record r says what record q says.
    fn set_copy(&mut self, r: usize, q: usize) {
        let from = record_at(q);
        self.bytes.copy_within(from..from + 4, record_at(r));
    }

    // Record r is spare: any bytes.
    fn set_noise(&mut self, r: usize) {
        let at = record_at(r);
        for k in 0..8 {
            let b = self.pick(256);
            self.set_byte(at + k, b);
        }
    }

    fn is_chained(&self, r: usize) -> bool {
        r < 128 && self.chained[r]
    }

    // Record r goes into the chain: behind some record of it, or to its front.
    fn link(&mut self, r: usize) {
        let q = self.pick(r);
        let before = if self.is_chained(q) {
            record_at(q) + 4
        } else {
            2
        };
        let after = self.byte(before);
        self.set_word(record_at(r) + 4, after);
        self.set_word(before, r);
        if r < 128 {
            self.chained[r] = true;
        }
    }

    // One record in eight is spare, as are all where there is one agent; one in eight says what an
    // earlier one says, if that one is on the chain.
    fn set_record(&mut self, r: usize) {
        let kind = self.pick(8);
        if self.byte(0) < 2 || kind == 0 {
            self.set_noise(r);
        } else {
            let q = self.pick(r);
            if kind == 1 && self.is_chained(q) {
                self.set_copy(r, q);
            } else {
                self.set_ban(r);
            }
            self.link(r);
        }
    }

    // Half of the sheets have up to 120 records, the others up to 60. Returns the length of the
    // sheet.
    fn set_records(&mut self) -> usize
        ensures { result ≤ 984 }
    {
        let most = if self.pick(2) == 0 { 120 } else { 60 };
        let m = self.pick(most + 1);
        self.set_word(4, m);
        for r in 1..=m {
            self.set_record(r);
        }
        24 + 8 * m
    }

    // ---- damage

    // Some byte of those from `first` on becomes some number below `below`.
    fn hit(&mut self, first: usize, bytes: usize, below: usize)
        requires { first + bytes ≤ 65536 }
    {
        let at = first + self.pick(bytes);
        let b = self.pick(below);
        self.set_byte(at, b);
    }

    // The index of the next record of some record, or of the first one, becomes another, up to one
    // beyond the last.
    fn detour(&mut self) {
        let m = self.byte(4);
        let q = self.pick(m + 1);
        let before = if q == 0 { 2 } else { record_at(q) + 4 };
        let next = self.pick(m + 2);
        self.set_word(before, next);
    }

    // Half of the sheets are damaged; some damage is harmless. Returns the length of the sheet
    // then.
    fn damage(&mut self, length: usize) -> usize
        requires { length ≤ 984 }
        ensures { result ≤ 1000 }
    {
        let records = 8 * self.byte(4);
        match self.pick(15) {
            0 => self.hit(0, 24, 256),
            1 => self.hit(0, 24, 16),
            2 => self.hit(24, records, 16),
            3 => self.hit(24, records, 4),
            4 => self.detour(),
            5 => return self.pick(length),
            6 => return length + 1 + self.pick(16),
            7 => self.hit(24, records, 256),
            _ => {}
        }
        length
    }
}

// Where record r begins, 1 to 120.
fn record_at(r: usize) -> usize
    ensures { result ≤ 976 }
{
    if r <= 120 { 16 + 8 * r } else { 16 }
}

// The most values that n agents have: never more than 4,096 assignments in all.
fn most_slots(n: usize) -> usize {
    match n {
        0..=4 => 8,
        5 | 6 => 4,
        _ => 2,
    }
}

// One sheet in four has up to four agents, one in four up to twelve, the others up to six.
fn most_scanners(k: usize) -> usize
    ensures { (1 ≤ result) × (result ≤ 12) }
{
    match k {
        0 => 4,
        1 => 12,
        _ => 6,
    }
}

/// A sheet for this state of the generator.
pub fn random_draft(state: u64) -> Draft
    ensures { result.length ≤ 1024 }
{
    let mut d = Drawing::headed(state);
    d.set_edition();
    let whole = d.set_records();
    let length = d.damage(whole);
    Draft {
        bytes: d.bytes,
        length,
        state: d.state,
    }
}
