//! A second reading of a sheet, by other means than the dock's: its first fault, and whether values
//! obey its bans.
//!
//! A record that was met before has passed its checks, so a chain comes back exactly if it goes on
//! after m good records.
ghost use Rattle.std.specs.Prelude.{◌≡◌, ℕ, ◌<◌, Bool};
ghost use Rattle.gate_second_reading.specs.Bytes.{byte_of, word_of, slots_of, of_gaps, gap_of, record_of, next_of, each_to};
ghost use Rattle.gate_second_reading.specs.Faults.{slots_right, kind_right, records_right, rest_zero, header_right, owned_by, fields_right, scanners_right, tail_right, record_right, chain_fault, fault_of, fault_number};
ghost use Rattle.gate_second_reading.specs.Bans.{bans_slots, bans_choice, is_of, chain_of, some_of, forbids_on, obeys_all};

use crate::choices::Choice;

/// Byte k, and 0 beyond the end.
#[tactic(auto, unfolding(crate::specs::Bytes::byte_of))]
pub fn byte(s: &[u8], k: usize) -> u8
    ensures { result ≡ byte_of s.now k }
{
    if k < s.len() { s[k] } else { 0 }
}

// Two bytes, little-endian.
#[tactic(auto, unfolding(crate::specs::Bytes::word_of))]
fn word(s: &[u8], k: usize) -> u16
    requires { k < 1000000 }
    ensures { result ≡ word_of s.now k }
{
    u16::from_le_bytes([byte(s, k), byte(s, k + 1)])
}

/// What is wrong with a sheet.
#[derive(Clone, Copy, PartialEq, Eq, Debug)]
pub enum SheetRejection {
    /// A length under 24, or not 24 + 8m.
    Length,
    /// A byte of the header outside its range, or the first index above m.
    Header,
    /// A fault in a record on the chain.
    Record,
    /// The chain comes back to a record.
    Chain,
}

impl SheetRejection {
    /// The number of the rejection, 1 to 4.
    pub fn number(self) -> u8
        ensures { result ≡ fault_number self }
    {
        match self {
            SheetRejection::Length => 1,
            SheetRejection::Header => 2,
            SheetRejection::Record => 3,
            SheetRejection::Chain => 4,
        }
    }
}

/// A sheet by its bytes.
#[derive(Clone, Copy)]
pub struct Sheet<'a> {
    pub bytes: &'a [u8],
}

// A record of a sheet: its eight bytes, and all behind them.
#[derive(Clone, Copy)]
struct Record<'a> {
    sheet: Sheet<'a>,
    bytes: &'a [u8],
}

// ---- the header

impl<'a> Sheet<'a> {
    /// How many values agent i has, i below 256: the byte of the header where it stands.
    #[tactic(auto, unfolding(crate::specs::Bytes::slots_of))]
    pub fn slots(&self, i: usize) -> u8
        requires { i < 256 }
        ensures { result ≡ slots_of self.now.bytes.now i }
    {
        byte(self.bytes, 7 + i)
    }

    // An agent has 1 to 8 values, and what is no agent has none.
    #[tactic(auto, unfolding(crate::specs::Faults::slots_right))]
    fn slots_right(&self, i: u8) -> bool
        ensures { result ≡ slots_right self.now.bytes.now i }
    {
        let d = self.slots(usize::from(i));
        if i <= byte(self.bytes, 0) {
            0 < d && d < 9
        } else {
            d == 0
        }
    }

    // All twelve are right.
    fn all_slots_right(&self) -> bool
        ensures { result ≡ each_to 12 (slots_right self.now.bytes.now) }
    {
        (1..13).all(|i| self.slots_right(i))
    }

    // The number of agents and the edition.
    #[tactic(auto, unfolding(crate::specs::Faults::kind_right))]
    fn kind_right(&self) -> bool
        ensures { result ≡ kind_right self.now.bytes.now }
    {
        let n = byte(self.bytes, 0);
        let edition = byte(self.bytes, 1);
        0 < n && n < 13 && 0 < edition && edition < 3
    }

    // The number of records and the first one.
    #[tactic(auto, unfolding(crate::specs::Faults::records_right))]
    fn records_right(&self) -> bool
        ensures { result ≡ records_right self.now.bytes.now }
    {
        let m = word(self.bytes, 4);
        m <= 4224 && word(self.bytes, 2) <= m
    }

    // The bytes that are not used.
    #[tactic(auto, unfolding(crate::specs::Faults::rest_zero))]
    fn rest_zero(&self) -> bool
        ensures { result ≡ rest_zero self.now.bytes.now }
    {
        word(self.bytes, 6) == 0 && word(self.bytes, 20) == 0 && word(self.bytes, 22) == 0
    }

    #[tactic(auto, unfolding(crate::specs::Faults::header_right))]
    fn header_right(&self) -> bool
        ensures { result ≡ header_right self.now.bytes.now }
    {
        self.kind_right() && self.records_right() && self.rest_zero() && self.all_slots_right()
    }

    /// The sheet bans gaps.
    #[tactic(auto, unfolding(crate::specs::Bytes::of_gaps))]
    pub fn of_gaps(&self) -> bool
        ensures { result ≡ of_gaps self.now.bytes.now }
    {
        byte(self.bytes, 1) == 2
    }

    /// Value v of agent i is owned.
    #[tactic(auto, unfolding(crate::specs::Faults::owned_by))]
    pub(crate) fn owned(&self, i: u8, v: u8) -> bool
        ensures { result ≡ owned_by self.now.bytes.now i v }
    {
        0 < v && v <= self.slots(usize::from(i))
    }
}

// ---- a record

impl Record<'_> {
    // The gap in byte k, 7 more: 0 to 14 stand for -7 to 7, and what is beyond is no gap.
    #[tactic(auto, unfolding(crate::specs::Bytes::gap_of))]
    fn gap(&self, k: usize) -> u8
        ensures { result ≡ gap_of self.now.bytes.now k }
    {
        byte(self.bytes, k).wrapping_add(7)
    }

    // The two fields behind the agents: gaps in order, or owned values.
    #[tactic(auto, unfolding(crate::specs::Faults::fields_right))]
    fn fields_right(&self) -> bool
        ensures { result ≡ fields_right self.now.sheet.bytes.now self.now.bytes.now }
    {
        if self.sheet.of_gaps() {
            let greatest = self.gap(3);
            self.gap(2) <= greatest && greatest < 15
        } else {
            self.sheet.owned(byte(self.bytes, 0), byte(self.bytes, 2))
                && self.sheet.owned(byte(self.bytes, 1), byte(self.bytes, 3))
        }
    }

    // The two agents.
    #[tactic(auto, unfolding(crate::specs::Faults::scanners_right))]
    fn scanners_right(&self) -> bool
        ensures { result ≡ scanners_right self.now.sheet.bytes.now self.now.bytes.now }
    {
        let lower = byte(self.bytes, 0);
        let higher = byte(self.bytes, 1);
        0 < lower && lower < higher && higher <= byte(self.sheet.bytes, 0)
    }

    // The next index, and the last two bytes.
    #[tactic(auto, unfolding(crate::specs::Faults::tail_right))]
    fn tail_right(&self) -> bool
        ensures { result ≡ tail_right self.now.sheet.bytes.now self.now.bytes.now }
    {
        word(self.bytes, 4) <= word(self.sheet.bytes, 4) && word(self.bytes, 6) == 0
    }

    // It bans these values of its agents. In edition 1 they are the two that it names; in edition 2
    // their gap lies from its least to its greatest, all three compared with 7 added.
    #[tactic(auto, unfolding(crate::specs::Bans::bans_slots))]
    fn bans_slots(&self, low: u8, high: u8) -> bool
        ensures { result ≡ bans_slots self.now.sheet.bytes.now self.now.bytes.now low high }
    {
        if self.sheet.of_gaps() {
            let low = usize::from(low);
            let high = usize::from(high) + 7;
            low + usize::from(self.gap(2)) <= high && high <= low + usize::from(self.gap(3))
        } else {
            low == byte(self.bytes, 2) && high == byte(self.bytes, 3)
        }
    }
}

// ---- the chain

impl<'a> Sheet<'a> {
    // Record r; record 1 begins at byte 24.
    fn record_of(&self, r: u16) -> Record<'a>
        ensures sheet { result.sheet.bytes.now ≡ self.now.bytes.now }
        ensures bytes { result.bytes.now ≡ record_of self.now.bytes.now r }
    {
        let at = 16 + 8 * usize::from(r);
        Record {
            sheet: *self,
            bytes: self.bytes.get(at..).unwrap_or(&[]),
        }
    }

    #[tactic(auto, unfolding(crate::specs::Faults::record_right))]
    fn record_right(&self, r: u16) -> bool
        ensures { result ≡ record_right self.now.bytes.now r }
    {
        let ban = self.record_of(r);
        ban.scanners_right() && ban.fields_right() && ban.tail_right()
    }

    // The record behind record r.
    fn next_of(&self, r: u16) -> u16
        ensures { result ≡ next_of self.now.bytes.now r }
    {
        word(self.record_of(r).bytes, 4)
    }

    fn chain_fault(&self) -> Option<SheetRejection>
        ensures { result ≡ chain_fault (word_of self.now.bytes.now 4) self.now.bytes.now (word_of self.now.bytes.now 2) }
    {
        let mut r = word(self.bytes, 2);
        for _ in 0..word(self.bytes, 4) {
            if r == 0 {
                return None;
            }
            if !self.record_right(r) {
                return Some(SheetRejection::Record);
            }
            r = self.next_of(r);
        }
        match r {
            0 => None,
            _ => Some(SheetRejection::Chain),
        }
    }

    /// The sheet's first fault. Equals `fault_of` of specs/Faults.antt.
    #[tactic(auto, unfolding(crate::specs::Faults::fault_of))]
    pub fn fault(&self) -> Option<SheetRejection>
        ensures { result ≡ fault_of self.now.bytes.now }
    {
        if self.bytes.len() < 24 {
            Some(SheetRejection::Length)
        } else if !self.header_right() {
            Some(SheetRejection::Header)
        } else if self.bytes.len() != 24 + 8 * usize::from(word(self.bytes, 4)) {
            Some(SheetRejection::Length)
        } else {
            self.chain_fault()
        }
    }
}

// ---- bans

impl Sheet<'_> {
    // Record r bans the values that the choice has of its agents; an agent without a value counts
    // as one with value 0.
    #[tactic(auto, unfolding(crate::specs::Bans::bans_choice))]
    fn bans(&self, r: u16, c: Choice) -> bool
        ensures { result ≡ bans_choice self.now.bytes.now c.of r }
    {
        let ban = self.record_of(r);
        let low = c.slot(usize::from(byte(ban.bytes, 0))).unwrap_or(0);
        let high = c.slot(usize::from(byte(ban.bytes, 1))).unwrap_or(0);
        ban.bans_slots(low, high)
    }

    // Record r is one of agents i and j.
    #[tactic(auto, unfolding(crate::specs::Bans::is_of))]
    fn is_of(&self, r: u16, i: usize, j: usize) -> bool
        ensures { result ≡ is_of self.now.bytes.now i j r }
    {
        let ban = self.record_of(r);
        usize::from(byte(ban.bytes, 0)) == i && usize::from(byte(ban.bytes, 1)) == j
    }

    // Some record of the chain passes a test.
    fn some_record<F: Fn(u16) -> bool>(&self, passes: F) -> bool
        requires { (r : ℕ) → r < 65536 → F.pre passes r }
        ensures { (p : ℕ → Bool) → ((r : ℕ) (b : Bool) → r < 65536 → F.post passes r b → b ≡ p r) → result ≡ some_of p (chain_of self.now.bytes.now) }
    {
        let mut r = word(self.bytes, 2);
        for _ in 0..word(self.bytes, 4) {
            if r == 0 {
                return false;
            }
            if passes(r) {
                return true;
            }
            r = self.next_of(r);
        }
        false
    }

    /// Some record of the chain, of agents i and j, bans these values. Equals `forbids_on` of
    /// specs/Bans.antt.
    pub fn forbids(&self, i: usize, j: usize, c: Choice) -> bool
        ensures { result ≡ forbids_on self.now.bytes.now i j c.of }
    {
        self.some_record(|r| self.is_of(r, i, j) && self.bans(r, c))
    }

    /// No record of the chain bans these values. Equals `obeys_all` of specs/Bans.antt.
    pub fn obeys(&self, c: Choice) -> bool
        ensures { result ≡ obeys_all self.now.bytes.now c.of }
    {
        !self.some_record(|r| self.bans(r, c))
    }
}
