//! Theorems about the network and lists of calls: no ban is broken at rest, the verdict comes only
//! where no assignment obeys all bans, full rounds are bounded, runs count them exactly, and the
//! counts of messages are right. No code. It stands on `theorems_agent` and `theorems_shape`. Start
//! with `specs/Calls.antt`, which says what a list of calls is, then `specs/Claims.antt`.
#![tactic(auto)]
