// What a record of a sheet says.

/// A record without the index of the next one.
#[derive(Clone, Copy, PartialEq, Eq)]
pub struct Row {
    /// The lower-numbered agent.
    pub lower: u8,
    /// The higher-numbered agent.
    pub higher: u8,
    /// Edition 1: the lower agent's value. Edition 2: the least gap, a signed byte.
    pub low: u8,
    /// Edition 1: the higher agent's value. Edition 2: the greatest gap, a signed byte.
    pub high: u8,
}
