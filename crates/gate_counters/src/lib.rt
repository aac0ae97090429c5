//! Counters for the gate's programs: how many of a kind were tried, in 64 bits and never past the
//! top. Start with `Count`.
#![tactic(auto)]

ghost use Rattle.std.specs.Prelude.{◌≡◌, ◌+◌, ◌-◌, ◌^◌, min, max};

/// How many there are so far; at 2^64 - 1 it stays there.
#[derive(Clone, Copy)]
pub struct Count {
    pub n: u64,
}

impl Count {
    /// Nothing counted yet.
    pub fn none() -> Count
        ensures { result.n ≡ 0 }
    {
        Count { n: 0 }
    }

    /// Counts `more` of them.
    pub fn add(&mut self, more: u64)
        ensures { self.new.n ≡ min (self.old.n + more) (2 ^ 64 - 1) }
    {
        self.n = self.n.saturating_add(more);
    }

    /// Keeps the greatest of what was given so far and `n`.
    pub fn raise(&mut self, n: u64)
        ensures { self.new.n ≡ max self.old.n n }
    {
        self.n = self.n.max(n);
    }
}
