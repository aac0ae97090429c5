//! A season's figures: what a list of sheets comes to, the figures in numbers of 64 bits, and the
//! stream in which the sheets come. Definitions, claims with their proofs, and worked cases; no
//! code. It stands on `model_network`. Start with `specs/Season.antt`, then `specs/Claims.antt`.
#![tactic(auto)]
