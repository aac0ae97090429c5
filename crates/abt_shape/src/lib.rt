//! The clauses of a network's shape, one small function each, and where things stand in a network's
//! arrays. It stands on `abt_agent` and `abt_packed`; each clause equals one of
//! model_network/specs/Shape.antt or of specs/Parts.antt. `abt_record` puts them together to the
//! test of the shape. Start at `frames` and `places`. An agent's number is a `u8` from 1 to 12,
//! where a contract does not say otherwise. docs/RULES.md, below the table of 'Why a call comes
//! back', says what the shape is.
#![tactic(auto)]

pub mod agents;
pub mod channels;
pub mod frames;
pub mod places;
pub mod range;
mod sets;
