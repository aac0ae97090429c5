//! Where things stand in a network's arrays.
ghost use Rattle.std.specs.Prelude.{◌≡◌, true, false, not, ◌&&◌, ℕ, pred, ◌+◌, ◌*◌, ◌%◌, ◌≤◌, ◌<◌, eqb};
ghost use Rattle.model_base.specs.Finite.{within};
ghost use Rattle.model_sheet.specs.Problem.{pairs_before};
ghost use Rattle.abt_packed.specs.Packed.{assignment};
ghost use Rattle.model_network.specs.Lines.{is_channel, channel_at};

use abt_packed::with_digit;

/// Returns the number of the channel between two agents, 0 to 131, by sender, then receiver. Both
/// are 1 to 12, and they are different. Equals `channel_at` of model_network/specs/Lines.antt.
#[tactic(auto, using(crate::proofs::Numbering::ends))]
pub fn channel_at(from: u8, to: u8) -> usize
    requires { is_channel from to ≡ true }
    ensures { (result ≡ channel_at from to) × (result < 132) }
{
    let row = 11 * (from - 1);
    let place = if to < from {
        row + to - 1
    } else {
        row + to - 2
    };
    place as usize
}

/// Returns the sender and the receiver of the channel that has this number, 0 to 131: the inverse
/// of `channel_at`.
pub fn ends_of(channel: usize) -> (u8, u8)
    requires { channel < 132 }
    ensures { (is_channel result.0 result.1 ≡ true) × (channel_at result.0 result.1 ≡ channel) }
{
    let from = (channel / 11 + 1) as u8;
    let other = (channel % 11 + 1) as u8;
    let to = if other < from { other } else { other + 1 };
    (from, to)
}

/// Returns whether there is a channel (line) between two of n agents: both numbers are 1 to `n`,
/// and they are different.
#[tactic(auto, unfolding(model_base::specs::Finite::within))]
pub fn is_line(n: u8, from: u8, to: u8) -> bool
    ensures { result ≡ within n from && within n to && not (eqb from to) }
{
    0 < from && from <= n && 0 < to && to <= n && from != to
}

/// Returns the place, 0 to 1055, that lies `ahead` places after `head` in a channel's ring of
/// eight. `channel` is under 132; `head` and `ahead` are under 16 and count round the ring.
pub fn place_at(channel: usize, head: u8, ahead: u8) -> usize
    requires { (channel < 132) × (head < 16) × (ahead < 16) }
    ensures { (result ≡ 8 * channel + (head + ahead) % 8) × (result < 1056) }
{
    8 * channel + ((head + ahead) % 8) as usize
}

/// Returns a sender's row of counts without the digits that belong to no channel: its own, and
/// those beyond agent 12. `from` is 1 to 12.
pub fn lines_of(row: u64, from: u8) -> u64
    requires { (1 ≤ from) × (from ≤ 12) }
    ensures { (j : ℕ) → assignment result j ≡ (elim (is_channel from j) [ true ↦ assignment row j | false ↦ 0 ]) }
{
    with_digit(row % 0x1_0000_0000_0000, from, 0)
}

/// Returns how many words of the table of bans stand before those of this agent, 1 to 12. The word
/// of the lower agent i and the higher agent j stands at place `words_before(j) + i - 1`.
pub fn words_before(agent: u8) -> usize
    requires { (1 ≤ agent) × (agent ≤ 12) }
    ensures { (result ≡ pairs_before (pred agent)) × (result + agent ≤ 67) }
{
    let k = (agent - 1) as u32;
    ((k * k - k) / 2) as usize
}
