//! The text in which the gate's programs are given their cases: lines, what they ask for, and the
//! sheets that they build. Its functions equal definitions in specs/. Start with `lines`, then
//! `kinds` and `sheets`.
#![tactic(auto)]

pub mod kinds;
pub mod lines;
pub mod sheets;
