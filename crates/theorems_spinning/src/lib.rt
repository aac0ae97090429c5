//! A list of deliveries without end and without a full round, all of them accepted: the bound on
//! full rounds is no bound on deliveries. No code. It stands on `theorems_network`. Start with
//! `specs/Spinning.antt`, then `specs/Claims.antt`.
#![tactic(auto)]
