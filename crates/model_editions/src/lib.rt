//! Turning a sheet of one edition into one of the other: the records of a ban sheet and of a gap
//! sheet, and what is written into a lent buffer. Definitions and worked cases, no code; the
//! theorems are in `theorems_editions`. It stands on `model_sheet`. Start with
//! `specs/Turning.antt`.
#![tactic(auto)]
