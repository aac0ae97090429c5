//! Sheets of edition 1, ban by ban, and the networks that they start.
use crate::draws::draw;
use abt_record::Network;
use gate_random::draws::next;

/// A sheet of at most 28 records, chained in their order. What is behind the last record is zero.
#[derive(Clone, Copy)]
pub struct Draft {
    pub bytes: [u8; 256],
    pub records: usize,
}

fn with_byte(d: Draft, at: usize, b: u8) -> Draft {
    let mut o = d;
    if at < 256 {
        o.bytes[at] = b;
    }
    o
}

fn byte_at(d: Draft, at: usize) -> u8 {
    if at < 256 { d.bytes[at] } else { 0 }
}

// So many agents, with no values and no bans yet.
fn blank(n: u8) -> Draft {
    let mut bytes = [0; 256];
    bytes[0] = n;
    bytes[1] = 1;
    Draft { bytes, records: 0 }
}

// Agent i has so many values.
fn with_slots(d: Draft, i: u8, slots: u8) -> Draft {
    with_byte(d, 7 + i as usize, slots)
}

// One record more, at the end of the chain; at most 28.
fn with_ban(d: Draft, lower: u8, slot: u8, higher: u8, other: u8) -> Draft {
    let k = d.records;
    if 28 <= k {
        return d;
    }
    let at = 24 + 8 * k;
    let link = if k == 0 { 2 } else { at - 4 };
    let chained = with_byte(with_byte(d, link, k as u8 + 1), 4, k as u8 + 1);
    let named = with_byte(with_byte(chained, at, lower), at + 1, higher);
    let mut o = with_byte(with_byte(named, at + 2, slot), at + 3, other);
    o.records = k + 1;
    o
}

/// A sheet of at most twelve agents with so many values each, and of at most 28 bans: agent, value,
/// agent, value.
pub fn drafted(slots: &[u8], bans: &[(u8, u8, u8, u8)]) -> Draft {
    let mut d = blank(slots.len().min(12) as u8);
    for (i, most) in (1..=12).zip(slots) {
        d = with_slots(d, i, *most);
    }
    for (lower, slot, higher, other) in bans {
        d = with_ban(d, *lower, *slot, *higher, *other);
    }
    d
}

/// The network that a sheet starts; the empty one where it is rejected.
pub fn rail(d: Draft, rule: u8) -> Network {
    match d.bytes.get(..24 + 8 * d.records.min(28)) {
        Some(sheet) => abt_start::start(rule, sheet).unwrap_or(abt_record::empty()),
        None => abt_record::empty(),
    }
}

// ---- random sheets

/// A sheet on its way, and the generator's state.
#[derive(Clone, Copy)]
pub struct Drawn {
    pub draft: Draft,
    pub state: u64,
}

// A value of agent i.
fn slot_of(d: Draft, i: u8, state: u64) -> u8 {
    draw(state, byte_at(d, 7 + i as usize)) % 8 + 1
}

impl Drawn {
    // Agent i has up to `most` values.
    fn with_scanner(self, i: u8, most: u8) -> Drawn {
        let state = next(self.state);
        let slots = draw(state, most) % 8 + 1;
        Drawn {
            draft: with_slots(self.draft, i, slots),
            state,
        }
    }

    // One random ban more between two of n agents, where there are two.
    fn with_random(self, n: u8) -> Drawn {
        if n < 2 {
            return self;
        }
        let Drawn { draft, state } = self;
        let a = next(state);
        let b = next(a);
        let e = next(b);
        let f = next(e);
        let lower = 1 + draw(a, n - 1);
        let higher = lower + 1 + draw(b, n - lower);
        let slot = slot_of(draft, lower, e);
        let other = slot_of(draft, higher, f);
        Drawn {
            draft: with_ban(draft, lower, slot, higher, other),
            state: f,
        }
    }
}

/// A sheet of one to six agents, one to four values each, and up to 28 bans.
pub fn random_sheet(state: u64) -> Drawn {
    let a = next(state);
    let b = next(a);
    let c = next(b);
    let n = draw(a, 6) + 1;
    let mut d = Drawn {
        draft: blank(n),
        state: c,
    };
    for i in 1..=n {
        d = d.with_scanner(i, draw(b, 4) + 1);
    }
    for _ in 0..draw(c, 29) {
        d = d.with_random(n);
    }
    d
}
