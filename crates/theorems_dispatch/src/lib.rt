//! Lists of picks, deliveries and runs together: such a list leaves what the calls that it comes to
//! leave, so what is claimed of lists of calls holds of it. No code. It stands on `model_dispatch`
//! and `theorems_network`. Start with `specs/Steps.antt`, then `specs/Claims.antt`.
#![tactic(auto)]
