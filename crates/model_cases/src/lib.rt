//! Worked nights beside those of `model_network` and `model_dispatch`, computed from the
//! definitions: under rule 1, under the quiet rule, and of the dispatcher. No code. Start with
//! `specs/Further.antt`.
#![tactic(auto)]
