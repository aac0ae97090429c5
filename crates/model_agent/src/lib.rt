//! One agent as rules: its record and agent view, the messages Info, Back and AddLink, and the step
//! that it makes at the start and when it is handed a message. Definitions, laws of messages and
//! assignments, and single steps worked by hand, no code. It stands on `model_sheet`. Start with
//! `specs/Agent.antt`, then `specs/Choosing.antt` and `specs/Receiving.antt`.
#![tactic(auto)]
