//! Theorems about sheets as text: the proofs of the claims of `model_text`. No code, and no
//! definitions of its own. Read `model_text`'s `specs/Claims.antt` first, then
//! `proofs/Theorems.antt`.
#![tactic(auto)]
