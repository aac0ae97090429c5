// The agents' records.
ghost use Rattle.std.specs.Prelude.{[], ◌∷◌, ◌++◌, ◌*◌, ◌≤◌, None};
ghost use Rattle.model_base.specs.Finite.{from_one, gather};
ghost use Rattle.model_sheet.specs.Problem.{max_domain};
ghost use Rattle.model_base.specs.Sets.{members};
ghost use Rattle.abt_choosing.specs.Choosing.{nogood_at};
ghost use Rattle.abt_agent.specs.Abstract.{assigned, count_of, agent_of};
ghost use Rattle.abt_record.specs.Abstract.{network_of};
ghost use Rattle.model_image.specs.Image.{slots, mask_bytes, reason_bytes, count_bytes, agent_bytes};
ghost use Rattle.support_buffer.specs.Puts.{Room, Puts};
ghost use Rattle.abt_image_writer.specs.Reasons.{reason_of};

use crate::slots::put_slots;
use abt_agent::{Agent, Traffic};
use abt_record::Network;
use support_buffer::cursor::Cursor;

// The mask of a set, two bytes: agents 1 to 12 of it. A set has bits for 16 agents; in shape the
// last four are not in it.
fn put_mask(out: &mut Cursor<'_>, set: u16)
    requires { Room out.old 2 }
    ensures { Puts out.old 2 (mask_bytes (members set)) out.new }
{
    out.put_all(&(set % 4096).to_le_bytes());
}

// A nogood, thirteen bytes: 1 and the values of its left side, or zeros where none is stored.
fn put_reason(out: &mut Cursor<'_>, reason: Option<u64>)
    requires { Room out.old 13 }
    ensures { Puts out.old 13 (reason_bytes (reason_of reason)) out.new }
{
    match reason {
        Some(word) => {
            out.put(1);
            put_slots(out, word);
        }
        None => out.put_all(&[0; 13]),
    }
}

// The nogoods of own values 1 to 8.
fn put_reasons(out: &mut Cursor<'_>, nogood_mask: u8, nogoods: &[u64; 8])
    requires { Room out.old 104 }
    ensures { Puts out.old 104 (gather max_domain 1 (λ v. reason_bytes (from_one None (nogood_at nogood_mask nogoods.now) v))) out.new }
{
    for v in 0..8 {
        put_reason(out, ((nogood_mask >> v) % 2 == 1).then_some(nogoods[v]));
    }
}

// The counts of Info, Back and AddLink messages, eight bytes each.
fn put_counts(out: &mut Cursor<'_>, c: &Traffic)
    requires { Room out.old 24 }
    ensures { Puts out.old 24 (count_bytes (count_of c.now)) out.new }
{
    out.put_all(&c.infos.to_le_bytes());
    out.put_all(&c.backs.to_le_bytes());
    out.put_all(&c.links.to_le_bytes());
}

// The value, the last value, the agents listened to, those informed, and the agent view.
fn put_front(out: &mut Cursor<'_>, a: &Agent)
    requires { Room out.old 18 }
    ensures { Puts out.old 18 ((a.now.value ∷ a.now.last ∷ []) ++ mask_bytes (members a.now.listens) ++ mask_bytes (members a.now.informs) ++ slots (assigned a.now.view)) out.new }
{
    out.put(a.value);
    out.put(a.last);
    put_mask(out, a.listens);
    put_mask(out, a.informs);
    put_slots(out, a.view.digits);
}

// One record, 170 bytes.
fn put_agent(out: &mut Cursor<'_>, a: &Agent)
    requires { Room out.old 170 }
    ensures { Puts out.old 170 (agent_bytes (agent_of a.now)) out.new }
{
    put_front(out, a);
    put_reasons(out, a.nogood_mask, &a.nogoods);
    put_counts(out, &a.sent);
    put_counts(out, &a.received);
}

/// Puts the records of agents 1 to n, 170 bytes each, behind what the cursor holds. Needs n at most
/// 12, and room for all of them. Each record equals `agent_bytes` of model_image/specs/Image.antt.
pub fn put_agents(out: &mut Cursor<'_>, r: &Network)
    requires few { r.now.count ≤ 12 }
    requires room { Room out.old (170 * r.now.count) }
    ensures { Puts out.old (170 * r.now.count) (gather r.now.count 1 (λ i. agent_bytes ((network_of r.now).agents i))) out.new }
{
    for a in &r.agents[..r.count as usize] {
        put_agent(out, a);
    }
}
