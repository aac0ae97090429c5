//! A choice of values for all agents, and the next one.
ghost use Rattle.std.specs.Prelude.{◌≡◌};
ghost use Rattle.gate_second_reading.specs.Bytes.{each_to};
ghost use Rattle.gate_second_reading.specs.Bans.{slot_in};
ghost use Rattle.gate_second_reading.specs.Choices.{first_choice, next_choice, solvable_by, slot_owned, settled_by};

use crate::reading::Sheet;

/// Place i - 1 is the value of agent i, if it has one.
#[derive(Clone, Copy)]
pub struct Choice {
    pub of: [Option<u8>; 12],
}

impl Choice {
    /// Each agent has value 1.
    #[tactic(auto, unfolding(crate::specs::Choices::first_choice))]
    pub fn first() -> Choice
        ensures { result ≡ first_choice }
    {
        Choice { of: [Some(1); 12] }
    }

    /// The value of agent i; None for a number that is not 1 to 12.
    pub fn slot(self, i: usize) -> Option<u8>
        ensures { result ≡ slot_in self.of i }
    {
        if 0 < i && i <= 12 {
            self.of[i - 1]
        } else {
            None
        }
    }
}

impl Sheet<'_> {
    // The next choice; None behind the last one. An agent takes its next value where all before it
    // are through with theirs, and those begin again; an agent without a value counts as one with
    // value 0.
    fn next_choice(&self, c: Choice) -> Option<Choice>
        ensures { result ≡ next_choice self.now.bytes.now c }
    {
        let mut of = c.of;
        for k in 0..12 {
            let slot = of[k].unwrap_or(0);
            if slot < self.slots(k + 1) {
                of[k] = Some(slot + 1);
                return Some(Choice { of });
            }
            of[k] = Some(1);
        }
        None
    }

    /// Some choice obeys all bans. A sheet with more than 40,000 choices counts as one that has
    /// such a choice. Equals `solvable_by` of specs/Choices.antt.
    pub fn solvable(&self) -> bool
        ensures { result ≡ solvable_by self.now.bytes.now }
    {
        let mut c = Choice::first();
        for _ in 0..40000u32 {
            if self.obeys(c) {
                return true;
            }
            let Some(next) = self.next_choice(c) else {
                return false;
            };
            c = next;
        }
        true
    }

    // Agent i has a value of its own, or there is no such agent and it has none.
    #[tactic(auto, unfolding(crate::specs::Choices::slot_owned))]
    fn slot_owned(&self, c: Choice, i: u8) -> bool
        ensures { result ≡ slot_owned self.now.bytes.now c.of i }
    {
        match c.slot(usize::from(i)) {
            Some(slot) => self.owned(i, slot),
            None => self.slots(usize::from(i)) == 0,
        }
    }

    fn all_slots_owned(&self, c: Choice) -> bool
        ensures { result ≡ each_to 12 (slot_owned self.now.bytes.now c.of) }
    {
        (1..13).all(|i| self.slot_owned(c, i))
    }

    /// Every agent has a value of its own, and no ban is broken. Equals `settled_by` of
    /// specs/Choices.antt.
    #[tactic(auto, unfolding(crate::specs::Choices::settled_by))]
    pub fn settles(&self, c: Choice) -> bool
        ensures { result ≡ settled_by self.now.bytes.now c.of }
    {
        self.all_slots_owned(c) && self.obeys(c)
    }
}
