//! The dispatcher as rules: which channel a pick serves, the count of picks and the place. Beside
//! the definitions stand the claims about lists of picks, with their proofs, and a worked night; no
//! code. It stands on `model_network`. Start with `specs/Dispatch.antt`, then `specs/Claims.antt`.
#![tactic(auto)]
