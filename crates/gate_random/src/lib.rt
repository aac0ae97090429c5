//! Random sheets, and networks that random deliveries leave, for the programs that try things in
//! the gate. It stands on `gate_second_reading` and `abt`. Start with `draws`, the generator.
#![tactic(auto)]

pub mod drafts;
pub mod draws;
pub mod rails;
