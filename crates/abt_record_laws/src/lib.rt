//! What a change of a network's arrays does to the network: proofs only, no code. A message taken
//! off a channel, a message put at its end, an agent stored, and a whole delivery put together of
//! these. It stands on `abt_record` and on the definitions of model_network; the proofs of
//! `abt_engine` and `abt_start`, among others, cite it. Start at specs/Held.antt, and at
//! proofs/Rings.antt and proofs/Changes.antt.
#![tactic(auto)]
