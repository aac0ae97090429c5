//! The little sheets: the sheet of each ordinal, the ordinal of each little problem, and writing
//! one into a lent buffer. Definitions, claims with their proofs (4,996 of them, each accepted,
//! each little problem exactly once), and worked cases; no code. It stands on `model_sheet`, and on
//! `model_network` for the start. Start with `specs/Little.antt`, then `specs/Claims.antt`.
#![tactic(auto)]
