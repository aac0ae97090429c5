//! Lists of calls with writes and reads of the network between them: such a list leaves, tries and
//! makes what its calls alone do, so what is claimed of lists of calls holds of it. No code. It
//! stands on `model_image_forms` and `theorems_network`. Start with `specs/Entries.antt`, then
//! `specs/Claims.antt`.
#![tactic(auto)]
