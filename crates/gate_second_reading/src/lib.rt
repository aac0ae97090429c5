//! What the gate's programs hold the dock to: a second reading of a sheet, a search through all
//! assignments, and buffers that are lent. The reading shares no definition and no code with what
//! it tests; its functions equal definitions in specs/. Start with `reading`, then `choices`.
#![tactic(auto)]

pub mod assigned;
pub mod buffers;
pub mod choices;
pub mod reading;
