//! Theorems about turning one edition of the sheet into the other: domains and bans stay, 15 is
//! given exactly where gaps cannot say the bans, and there and back a second time gives the same
//! bytes. No code. It stands on `model_editions`. Start with `specs/Claims.antt`.
#![tactic(auto)]
