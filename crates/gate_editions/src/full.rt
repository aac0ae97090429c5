//! The gap sheet of twelve agents with eight values each that bans every gap between any two.

// The sheet as it is built, record by record: 66 of eight bytes behind the header. Each record
// names the next by its number, so that is counted.
#[derive(Clone, Copy)]
struct Full {
    bytes: [u8; 552],
    records: u8,
}

impl Full {
    // Twelve agents, edition 2, the first record and how many there are to be, eight values each.
    fn new() -> Full {
        let mut bytes = [0; 552];
        bytes[..6].copy_from_slice(&[12, 2, 1, 0, 66, 0]);
        bytes[8..20].fill(8);
        Full { bytes, records: 0 }
    }

    // One record more: gaps -7 to 7 of two agents; the last one leads nowhere.
    fn with_record(mut self, lower: u8, higher: u8) -> Full {
        if self.records < 66 {
            self.records += 1;
            let next = if self.records < 66 {
                self.records + 1
            } else {
                0
            };
            let at = 16 + 8 * self.records as usize;
            self.bytes[at..at + 8].copy_from_slice(&[lower, higher, 249, 7, next, 0, 0, 0]);
        }
        self
    }
}

/// The bytes of the sheet.
pub fn all_gaps() -> [u8; 552] {
    let mut full = Full::new();
    for lower in 1..12 {
        for higher in lower + 1..=12 {
            full = full.with_record(lower, higher);
        }
    }
    full.bytes
}
