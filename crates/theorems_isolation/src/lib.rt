//! Theorems about two networks that are alike in one agent: handed the same messages, it ends with
//! the same record and has sent the same; and what else decides whether a delivery to it is
//! accepted. No code. It stands on `theorems_network`. Start with `specs/Tenants.antt`, then
//! `specs/Claims.antt`.
#![tactic(auto)]
