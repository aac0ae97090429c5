//! The two forms of a network's image: bytes laid by place, packed messages, and reading, writing
//! and moving an image of either form. Definitions, claims with their proofs, and P9's image in
//! both forms worked by hand; no code. It stands on `model_image`. Start with `specs/Forms.antt`,
//! then `specs/Claims.antt`.
#![tactic(auto)]
