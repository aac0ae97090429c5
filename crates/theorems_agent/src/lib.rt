//! Theorems about one agent's step by the rules of `model_agent`: all that the theorems about the
//! network use of an agent, gathered as `AgentFacts`. No code. Start with `specs/Facts.antt`.
#![tactic(auto)]
