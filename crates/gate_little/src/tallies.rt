//! How many of each kind there are, and what failed.
use abt_words::printing::Screen;
use gate_counters::Count;

/// How many of each kind there are.
#[derive(Clone, Copy)]
pub struct Tally {
    /// Runs that end in `none`, of one, two and three agents.
    pub nones: [Count; 3],
    /// Runs that end in `plan`, of one, two and three agents.
    pub plans: [Count; 3],
    /// Problems unlike all before.
    pub different: Count,
    /// The most full rounds of one run.
    pub most_rounds: Count,
    /// The full rounds of all runs.
    pub sum_of_rounds: Count,
    /// Sheets rejected in a buffer one byte short.
    pub short: Count,
    failed: Count,
    out: Screen,
}

/// Counts one more of n agents, n from 1 to 3; any other n counts nothing.
pub fn count_scanners(counts: &mut [Count; 3], n: u8) {
    match n {
        1..=3 => counts[n as usize - 1].add(1),
        _ => {}
    }
}

impl Tally {
    /// Nothing tried yet.
    pub fn new(out: Screen) -> Tally {
        let none = Count::none();
        Tally {
            nones: [none; 3],
            plans: [none; 3],
            different: none,
            most_rounds: none,
            sum_of_rounds: none,
            short: none,
            failed: none,
            out,
        }
    }

    /// Counts and prints what is not right, with the ordinal.
    pub fn judge(&mut self, ordinal: u64, right: bool, words: &[u8]) {
        if !right {
            self.failed.add(1);
            self.out = self
                .out
                .put(b"failed: ")
                .put(words)
                .line(b", ordinal ", ordinal);
        }
    }

    /// Prints how many end in each word, for so many agents, and the other counts.
    pub fn report(self) {
        let mut out = self.out;
        for (k, (none, plan)) in self.nones.iter().zip(&self.plans).enumerate() {
            out = out
                .put(b"scanners ")
                .number(k as u64 + 1)
                .put(b": none ")
                .number(none.n)
                .line(b", plan ", plan.n);
        }
        out.line(b"different problems ", self.different.n)
            .line(b"refused 12, one byte short: ", self.short.n)
            .line(b"most rounds ", self.most_rounds.n)
            .line(b"sum of rounds ", self.sum_of_rounds.n)
            .number(self.failed.n)
            .put(b" failed\n");
    }
}
