//! How many of each kind there are, and what failed.
use abt_words::printing::Screen;

/// What a sheet turned out to be. `Failed` counts what is not right, beside its kind.
#[derive(Clone, Copy, PartialEq, Eq)]
pub enum Kind {
    /// A little sheet, turned into gaps.
    LittleGaps,
    /// A little sheet, rejected with 15.
    LittleMixed,
    /// A random gap sheet, turned into bans.
    Bans,
    /// A random ban sheet, turned into gaps.
    Gaps,
    /// A random ban sheet, rejected with 15.
    Mixed,
    /// A random sheet, rejected with 1 to 4.
    Refused,
    /// The longest sheet.
    Long,
    Failed,
}

/// How many of each kind, and what is printed.
#[derive(Clone, Copy)]
pub struct Tally {
    of: [u64; 8],
    out: Screen,
}

impl Tally {
    /// Nothing tried yet.
    pub fn new(out: Screen) -> Tally {
        Tally { of: [0; 8], out }
    }

    fn count(self, kind: Kind) -> u64 {
        self.of[kind as usize]
    }

    fn with_one(mut self, kind: Kind) -> Tally {
        self.of[kind as usize] = self.count(kind).saturating_add(1);
        self
    }

    /// Counts one of this kind, and prints what is not right, with the number of what was tried.
    pub fn judged(self, kind: Kind, right: bool, words: &[u8], tried: u64) -> Tally {
        let tally = self.with_one(kind);
        if right {
            return tally;
        }
        let out = tally
            .out
            .put(b"failed: ")
            .put(words)
            .line(b", number ", tried);
        Tally { out, ..tally }.with_one(Kind::Failed)
    }

    /// Prints how many of each kind there are.
    pub fn report(self) {
        self.out
            .line(b"sheets of 4224 bans ", self.count(Kind::Long))
            .line(
                b"little sheets, turned into gaps ",
                self.count(Kind::LittleGaps),
            )
            .line(
                b"little sheets, refused with 15: ",
                self.count(Kind::LittleMixed),
            )
            .line(
                b"random gap sheets, turned into bans ",
                self.count(Kind::Bans),
            )
            .line(
                b"random ban sheets, turned into gaps ",
                self.count(Kind::Gaps),
            )
            .line(
                b"random ban sheets, refused with 15: ",
                self.count(Kind::Mixed),
            )
            .line(
                b"random sheets, refused with 1 to 4: ",
                self.count(Kind::Refused),
            )
            .number(self.count(Kind::Failed))
            .put(b" failed\n");
    }
}
