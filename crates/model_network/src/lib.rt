//! The network as rules: the agents and the channels between them, the start, the shape, one
//! delivery and the run. Definitions and worked nights of docs/RULES.md, no code. It knows an agent
//! by the definitions of `model_agent`. Start with `specs/Network.antt`, then `specs/Delivery.antt`
//! and `specs/Run.antt`.
#![tactic(auto)]
