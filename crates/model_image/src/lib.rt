//! The image of a network in its first form: its bytes, reading them back, and the networks that
//! hold nothing outside their arrays (`Plain`). Definitions, claims with their proofs, and P9's
//! image worked by hand; no code. It stands on `model_network`. Start with `specs/Image.antt`, then
//! `specs/Claims.antt`.
#![tactic(auto)]
