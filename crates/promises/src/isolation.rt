//! Noninterference: what an agent holds and sends depends only on its own record, domain and bans,
//! and on what it is handed.
//!
//! `Naming` compares all bans that name the agent; `NamingAbove` only those with agents above it,
//! which is less to ask.
ghost use Rattle.theorems_isolation.specs.Claims.{ActsAlike, AnsweredAlike};
ghost use Rattle.theorems_isolation.specs.Tenants.{Naming, NamingAbove};

/// On two networks alike in an agent that is handed the same, the agent ends with the same record
/// and has sent the same.
pub fn acts_alike()
    ensures named { ActsAlike Naming }
    ensures above { ActsAlike NamingAbove }
{}

/// Where the two also agree in three things (the shape, the verdict, and room on the agent's
/// outgoing channels) and the same message is next on a channel to the agent, the delivery is
/// answered the same.
pub fn answered_alike()
    ensures named { AnsweredAlike Naming }
    ensures above { AnsweredAlike NamingAbove }
{}
