//! What a sheet says, and whether gaps can say it, by a second reading.
ghost use Rattle.std.specs.Prelude.{◌≤◌};

use gate_second_reading::choices::Choice;
use gate_second_reading::reading::{Sheet, byte};

// Two agents of a sheet.
#[derive(Clone, Copy)]
struct Scanners<'a> {
    sheet: Sheet<'a>,
    lower: usize,
    higher: usize,
    ghost numbers: { (1 ≤ lower) × (lower ≤ 12) × (1 ≤ higher) × (higher ≤ 12) },
}

impl Scanners<'_> {
    // The sheet bans value v of the lower with value w of the higher.
    fn ban(&self, v: u8, w: u8) -> bool {
        let mut of = [None; 12];
        of[self.lower - 1] = Some(v);
        of[self.higher - 1] = Some(w);
        self.sheet.forbids(self.lower, self.higher, Choice { of })
    }

    // A bit for each banned pair of owned values.
    fn bans(&self) -> u64 {
        let mut bans = 0;
        for v in 1..=self.sheet.slots(self.lower).min(8) {
            for w in 1..=self.sheet.slots(self.higher).min(8) {
                bans |= u64::from(self.ban(v, w)) << (8 * (v - 1) + (w - 1));
            }
        }
        bans
    }

    // These values and the next ones of both, which have the same gap, are banned or free alike.
    fn goes_on(&self, v: u8, w: u8) -> bool {
        self.sheet.slots(self.lower) <= v
            || self.sheet.slots(self.higher) <= w
            || self.ban(v, w) == self.ban(v.saturating_add(1), w.saturating_add(1))
    }

    // The same of all their values.
    fn are_unmixed(&self) -> bool {
        for v in 1..=8 {
            for w in 1..=8 {
                if !self.goes_on(v, w) {
                    return false;
                }
            }
        }
        true
    }
}

/// What a sheet says: n, all domains, and the bans of each two agents.
#[derive(Clone, Copy, PartialEq, Eq)]
pub struct Said {
    n: u8,
    slots: [u8; 12],
    bans: [[u64; 12]; 12],
}

impl Said {
    /// Reads what a sheet says.
    pub fn of(sheet: Sheet) -> Said {
        let mut slots = [0; 12];
        let mut bans = [[0; 12]; 12];
        for lower in 1..=12 {
            slots[lower - 1] = sheet.slots(lower);
            for higher in lower + 1..=12 {
                let pair = Scanners {
                    sheet,
                    lower,
                    higher,
                };
                bans[lower - 1][higher - 1] = pair.bans();
            }
        }
        Said {
            n: byte(sheet.bytes, 0),
            slots,
            bans,
        }
    }
}

/// No two agents have two owned pairs of values with equal gap, one banned and one free: gaps can
/// say the sheet.
pub fn unmixed(sheet: Sheet) -> bool {
    for lower in 1..=12 {
        for higher in lower + 1..=12 {
            let pair = Scanners {
                sheet,
                lower,
                higher,
            };
            if !pair.are_unmixed() {
                return false;
            }
        }
    }
    true
}
