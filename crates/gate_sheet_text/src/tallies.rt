//! How many of each kind there are, and what failed.
use abt_words::printing::Screen;
use gate_counters::Count;

/// What was tried.
#[derive(Clone, Copy)]
pub enum Kind {
    /// A good sheet is told, and its text read again.
    Told,
    /// A bad sheet is rejected.
    Refused,
    /// A damaged text, or garbage, is read.
    Damaged,
}

/// How many of each kind, and what is printed.
#[derive(Clone, Copy)]
pub struct Tally {
    told: Count,
    refused: Count,
    damaged: Count,
    failed: Count,
    out: Screen,
}

impl Tally {
    /// Nothing tried yet.
    pub fn new(out: Screen) -> Tally {
        let none = Count::none();
        Tally {
            told: none,
            refused: none,
            damaged: none,
            failed: none,
            out,
        }
    }

    /// Counts one of this kind, and prints what is not right, with the number of what was tried.
    pub fn judge(&mut self, kind: Kind, right: bool, what: &[u8], tried: u64) {
        match kind {
            Kind::Told => self.told.add(1),
            Kind::Refused => self.refused.add(1),
            Kind::Damaged => self.damaged.add(1),
        }
        if !right {
            self.out = self
                .out
                .put(b"failed: ")
                .put(what)
                .line(b", number ", tried);
            self.failed.add(1);
        }
    }

    /// Prints how many of each kind there are.
    pub fn report(self) {
        self.out
            .line(b"random sheets, told and read again ", self.told.n)
            .line(b"random sheets, refused with 1 to 4: ", self.refused.n)
            .line(b"damaged texts, and garbage ", self.damaged.n)
            .number(self.failed.n)
            .put(b" failed\n");
    }
}
