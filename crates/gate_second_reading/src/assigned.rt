//! The values that a network's agents have taken. What a network answers is the network's own
//! definition: nothing of a sheet is read here.
ghost use Rattle.std.specs.Prelude.{◌≡◌, ℕ, ◌≤◌};
ghost use Rattle.model_network.specs.Delivery.{ask_value};
ghost use Rattle.abt_record.specs.Abstract.{network_of};
ghost use Rattle.gate_second_reading.specs.Bans.{slot_in, slot_from};

use crate::choices::Choice;
use abt_record::Network;

// The value of agent i, if it has one.
#[tactic(auto, unfolding(crate::specs::Bans::slot_from))]
fn slot_taken(rail: Network, i: u8) -> Option<u8>
    ensures { result ≡ slot_from (ask_value (network_of rail) i).value }
{
    match abt_record::value(rail, i) {
        Ok(slot) if slot != 0 => Some(slot),
        _ => None,
    }
}

/// The values of all agents; none for an agent that has none, and for one above n.
pub fn assigned_choice(rail: Network) -> Choice
    ensures { (i : ℕ) → 1 ≤ i → i ≤ 12 → slot_in result.of i ≡ slot_from (ask_value (network_of rail) i).value }
{
    let mut of = [None; 12];
    for (k, slot) in of.iter_mut().enumerate() {
        *slot = slot_taken(rail, k as u8 + 1);
    }
    Choice { of }
}
