//! How many of each kind were tried, and what failed.
use abt_engine::Ending;
use abt_words::printing::Screen;
use gate_counters::Count;
use support_rejection::Rejection;

/// How many of each kind, deliveries and runs apart. `refused` is by the errors that a delivery on
/// a network in shape can meet: 6, 7, 8 and 10; `words` are `none`, `plan`, `jammed` and `open`.
#[derive(Clone, Copy)]
pub struct Tally {
    pub rails: Count,
    accepted: Count,
    refused: [Count; 4],
    words: [Count; 4],
    pub rounds: Count,
    failed: Count,
    out: Screen,
}

impl Tally {
    /// Nothing tried yet; prints the tally's name.
    pub fn new(out: Screen, name: &[u8]) -> Tally {
        let none = Count::none();
        Tally {
            rails: none,
            accepted: none,
            refused: [none; 4],
            words: [none; 4],
            rounds: none,
            failed: none,
            out: out.put(name).put(b"\n"),
        }
    }

    /// Counts a delivery that was answered so.
    pub fn count_delivery(&mut self, rejection: Option<Rejection>) {
        match rejection {
            None => self.accepted.add(1),
            Some(Rejection::BadNumbers) => self.refused[0].add(1),
            Some(Rejection::VerdictStands) => self.refused[1].add(1),
            Some(Rejection::EmptyChannel) => self.refused[2].add(1),
            Some(Rejection::NoRoom) => self.refused[3].add(1),
            Some(_) => {}
        }
    }

    /// Counts a run that ended so.
    pub fn count_run(&mut self, ending: Ending) {
        match ending {
            Ending::Unsolvable => self.words[0].add(1),
            Ending::Plan => self.words[1].add(1),
            Ending::Jammed => self.words[2].add(1),
            Ending::Open => self.words[3].add(1),
            Ending::Broken => {}
        }
    }

    /// Counts and prints what is not right, with the generator's state, to try it with.
    pub fn judge(&mut self, right: bool, words: &[u8], state: u64) {
        if !right {
            self.failed.add(1);
            self.out = self.out.put(b"failed: ").line(words, state);
        }
    }

    /// Prints how many of each kind were tried.
    pub fn report(self) {
        let [numbers, verdicts, empty, full] = self.refused;
        let [none, plan, jammed, open] = self.words;
        self.out
            .line(b"rails ", self.rails.n)
            .line(b"deliveries accepted ", self.accepted.n)
            .line(b"refused 6: ", numbers.n)
            .line(b"refused 7: ", verdicts.n)
            .line(b"refused 8: ", empty.n)
            .line(b"refused 10: ", full.n)
            .line(b"runs to none ", none.n)
            .line(b"runs to plan ", plan.n)
            .line(b"runs to jammed ", jammed.n)
            .line(b"runs left open ", open.n)
            .line(b"full rounds ", self.rounds.n)
            .number(self.failed.n)
            .put(b" failed\n");
    }
}
