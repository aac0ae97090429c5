// The ban table.
ghost use Rattle.std.specs.Prelude.{suc, ◌-◌, ◌*◌, ◌≤◌, get_or};
ghost use Rattle.model_base.specs.Finite.{gather};
ghost use Rattle.model_sheet.specs.Problem.{max_agents, word_at};
ghost use Rattle.abt_record.specs.Abstract.{problem_of};
ghost use Rattle.model_image.specs.Bytes.{bytes_of};
ghost use Rattle.model_image.specs.Image.{ban_bytes};
ghost use Rattle.support_buffer.specs.Puts.{Room, Puts};

use abt_record::Network;
use abt_shape::places::words_before;
use support_buffer::cursor::Cursor;

// The bans of one lower agent, by higher agent.
fn put_bans_of(out: &mut Cursor<'_>, bans: &[u64; 66], lower: u8)
    requires inside { (1 ≤ lower) × (lower ≤ 12) }
    requires room { Room out.old (8 * (12 - lower)) }
    ensures { Puts out.old (8 * (12 - lower)) (gather (max_agents - lower) (suc lower) (λ j. bytes_of 8 (get_or bans.now (word_at lower j) 0))) out.new }
{
    for higher in lower + 1..13 {
        let word = bans[words_before(higher) + lower as usize - 1];
        out.put_all(&word.to_le_bytes());
    }
}

/// Puts the ban table, 528 bytes: eight for each of the 66 pairs of agents, upward by lower, then
/// higher agent. Needs room for them. Equals `ban_bytes` of model_image/specs/Image.antt.
pub fn put_bans(out: &mut Cursor<'_>, r: &Network)
    requires { Room out.old 528 }
    ensures { Puts out.old 528 (ban_bytes (problem_of r.now)) out.new }
{
    for lower in 1..=12 {
        put_bans_of(out, &r.bans, lower);
    }
}
