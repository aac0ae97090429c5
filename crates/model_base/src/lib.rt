//! Definitions that know nothing of agents, with their laws: finite search, single bits, sets as
//! masks, lists, numbers as decimal text and read back from it, and writing into a lent buffer.
//! Every other crate of the model stands on it. There is no code here. Start with
//! `specs/Finite.antt`; `specs/Lent.antt` says what a writer answers and what it leaves in the
//! buffer.
#![tactic(auto)]
