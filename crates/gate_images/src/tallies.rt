//! What was tried, and what failed.
use abt_words::printing::Screen;
use gate_counters::Count;

/// How many networks, messages and trials of each kind there are.
#[derive(Clone, Copy)]
pub struct Tally {
    pub rails: Count,
    /// Networks of rule 2 among them.
    pub by_rule_2: Count,
    /// Networks with the verdict among them.
    pub at_verdict: Count,
    pub messages: Count,
    /// Images tried in another layout.
    pub turned: Count,
    /// Images moved to the other form.
    pub moved: Count,
    /// Images of the first form with one byte changed.
    pub changed: Count,
    /// Beginnings of images.
    pub cut: Count,
    /// Images of the second form with one byte changed.
    pub small_changed: Count,
    failed: Count,
}

impl Tally {
    /// Nothing tried yet.
    pub fn new() -> Tally {
        let none = Count::none();
        Tally {
            rails: none,
            by_rule_2: none,
            at_verdict: none,
            messages: none,
            turned: none,
            moved: none,
            changed: none,
            cut: none,
            small_changed: none,
            failed: none,
        }
    }

    /// Counts what is not right as failed.
    pub fn judge(&mut self, right: bool) {
        if !right {
            self.failed.add(1);
        }
    }

    /// Prints how much was tried.
    pub fn report(&self, out: Screen) {
        out.line(b"rails ", self.rails.n)
            .line(b"of these by rule 2: ", self.by_rule_2.n)
            .line(b"of these with the verdict: ", self.at_verdict.n)
            .line(b"messages on their lines ", self.messages.n)
            .line(b"in another layout ", self.turned.n)
            .line(b"moved to the other form ", self.moved.n)
            .line(b"bytes changed ", self.changed.n)
            .line(b"beginnings cut off ", self.cut.n)
            .line(b"bytes of the second form changed ", self.small_changed.n)
            .number(self.failed.n)
            .put(b" failed\n");
    }
}
