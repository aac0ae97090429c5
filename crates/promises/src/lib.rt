//! The theorems of this project, each as a clause of a function.
//!
//! A function of this crate takes nothing and does nothing. Its clauses are claims about the
//! definitions, so the crate is proved only where every claim has its proof. The definitions and
//! most claims stand in the `model_*` and `theorems_*` crates. Start with [`calls`]: what holds of
//! every list of calls on a network. What a claim says stands in the file of specs/ that its import
//! names.
#![tactic(auto)]

pub mod agents;
pub mod calls;
pub mod editions;
pub mod figures;
pub mod isolation;
pub mod little;
pub mod mixed;
pub mod picks;
pub mod sheets;
pub mod storage;
pub mod texts;
pub mod worked;
