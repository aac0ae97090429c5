//! Every step keeps the shape of a network, forged networks included: a delivery and a run. The
//! start is in shape, and a link is asked for once. No code, and no definitions of its own: the
//! shape is `model_network`'s `specs/Shape.antt`. Read that first, then `proofs/Shape.antt`.
#![tactic(auto)]
