// The agents of an image. What reads a record, or a part of one, is given the bytes from there on.
ghost use Rattle.std.specs.Prelude.{◌≡◌, map, ℕ, pred, ◌+◌, ◌*◌, ◌≤◌, ◌<◌, eqb, length, get_or, take, drop};
ghost use Rattle.model_base.specs.Sets.{mask_from};
ghost use Rattle.abt_packed.specs.Packed.{assignment};
ghost use Rattle.abt_agent.specs.Abstract.{agent_of, count_of};
ghost use Rattle.abt_record.specs.Abstract.{agents_of};
ghost use Rattle.model_image.specs.Reading.{slots_in, counts_in, agent_in, agents_in};
ghost use Rattle.abt_image_reader.specs.Narrow.{narrow_lhs, narrow_agent};

use crate::bytes::{byte, eight_bytes, tail, two_bytes};
use abt_agent::{Agent, Assignment, Traffic};
use abt_record::empty;

/// Reads twelve values, a byte each, into a packed word: digit k, that of agent k, is the k-th byte
/// modulo 16. A byte past the end counts as 0. The word is below 16^12. Equals `slots_in` of
/// model_image/specs/Reading.antt, narrowed by `narrow_lhs` of specs/Narrow.antt.
pub fn slots(s: &[u8]) -> u64
    ensures { (assignment result ≡ narrow_lhs (slots_in s.now)) × (result < 281474976710656) }
{
    let mut word = 0;
    for i in (0..12).rev() {
        word = word * 16 + u64::from(byte(s, i) % 16);
    }
    word
}

// The set of the own values that have a stored nogood. In an agent's record eight nogoods of
// thirteen bytes each stand from byte 18 on.
fn nogood_mask(s: &[u8]) -> u8
    ensures { result ≡ mask_from (λ v. eqb (get_or s.now (18 + 13 * pred v) 0) 1) 1 8 }
{
    let mut mask = 0;
    for v in (0..8).rev() {
        mask = mask * 2 + u8::from(byte(s, 18 + 13 * v) == 1);
    }
    mask
}

// The left sides of a record's nogoods.
fn reasons(s: &[u8]) -> [u64; 8]
    ensures { (length result ≡ 8) × ((v : ℕ) → v < 8 → assignment (get_or result v 0) ≡ narrow_lhs (slots_in (drop (18 + 13 * v + 1) s.now))) }
{
    let mut words = [0u64; 8];
    for v in 0..8 {
        words[v] = slots(tail(s, 18 + 13 * v + 1));
    }
    words
}

// The counts of Info, Back and AddLink messages, eight bytes each.
fn counts(s: &[u8]) -> Traffic
    ensures { count_of result ≡ counts_in (take 24 s.now) }
{
    Traffic {
        infos: eight_bytes(s, 0),
        backs: eight_bytes(s, 8),
        links: eight_bytes(s, 16),
    }
}

// One record, 170 bytes.
fn agent(s: &[u8]) -> Agent
    ensures { agent_of result ≡ narrow_agent (agent_in (take 170 s.now)) }
{
    Agent {
        value: byte(s, 0),
        last: byte(s, 1),
        nogood_mask: nogood_mask(s),
        listens: two_bytes(s, 2),
        informs: two_bytes(s, 4),
        view: Assignment {
            digits: slots(tail(s, 6)),
        },
        nogoods: reasons(s),
        sent: counts(tail(s, 122)),
        received: counts(tail(s, 146)),
    }
}

/// Reads agents 1 to n of an image; those beyond n are unused. Needs n at most 12. Equals
/// `agents_in` of model_image/specs/Reading.antt, narrowed by `narrow_agent` of specs/Narrow.antt.
pub fn agents(s: &[u8], n: usize) -> [Agent; 12]
    requires { n ≤ 12 }
    ensures { agents_of (map agent_of result) ≡ (λ i. narrow_agent (agents_in n s.now i)) }
{
    let mut agents = empty().agents;
    for i in 0..n {
        agents[i] = agent(tail(s, 544 + 170 * i));
    }
    agents
}
