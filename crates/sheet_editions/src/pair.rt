// Two agents of a problem.
ghost use Rattle.std.specs.Prelude.{◌≤◌};

/// Two agents, their domain sizes, and what the table bans between them.
#[derive(Clone, Copy)]
pub struct Pair {
    /// The lower-numbered agent.
    pub lower: u8,
    /// The higher-numbered agent.
    pub higher: u8,
    /// The lower agent's domain size, at most 8.
    pub slots: u8,
    /// The higher agent's domain size, at most 8.
    pub others: u8,
    /// Their word of the table: bit 8 * (v - 1) + w - 1 bans the lower agent's value v with the
    /// higher's w.
    pub word: u64,
    pub ghost small: { (slots ≤ 8) × (others ≤ 8) },
}
