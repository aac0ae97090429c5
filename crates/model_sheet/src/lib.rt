//! The problem (agents, domains and bans) and the sheet that says it: from a sheet's bytes to a
//! problem or the first fault, and from rows to the bytes of a sheet. Definitions, their laws and
//! worked cases, no code. It stands on `model_base`. Start with `specs/Problem.antt`, then
//! `specs/Sheet.antt`.
#![tactic(auto)]
