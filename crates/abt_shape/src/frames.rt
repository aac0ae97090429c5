//! What the clauses on agents and messages go by, beside the bans, which are lent.

/// What the clauses on an agent and on a message read of the whole network. The words of bans are
/// lent beside it where a clause reads them, since they are 528 bytes.
#[derive(Clone, Copy, Debug, PartialEq, Eq)]
pub struct Frame {
    /// The number of agents, n.
    pub count: u8,
    /// Whether the verdict `none` stands.
    pub unsolvable: bool,
    /// The domains as hexadecimal digits: digit k, from 1 at the low end, is that of agent k.
    pub domains: u64,
    /// At place k - 1 the agents that agent k listens to, bit j - 1 for agent j.
    pub listens: [u16; 12],
    /// At place k - 1 the agents that agent k informs, bit j - 1 for agent j.
    pub informs: [u16; 12],
}
