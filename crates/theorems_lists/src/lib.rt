//! Lists that mix deliveries, runs, picks, and writes and reads of the network: what is claimed of
//! lists of calls holds of them too. No code. It joins `theorems_network`, `theorems_isolation`,
//! `theorems_image` and `theorems_dispatch`. Start with `specs/Items.antt`, then
//! `specs/Claims.antt`.
#![tactic(auto)]
