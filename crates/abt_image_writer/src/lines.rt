// The channels by number, 0 to 131, by sender, then receiver, and how many messages wait on each.
ghost use Rattle.std.specs.Prelude.{◌≡◌, ◌*◌, ◌≤◌, ◌<◌, length};
ghost use Rattle.model_image.specs.Image.{all_lines, messages_from};
ghost use Rattle.abt_record.specs.Abstract.{row_of, network_of};
ghost use Rattle.abt_image_writer.specs.Lines.{sender_of, receiver_of};

use abt_packed::digit;
use abt_record::Network;
use abt_shape::places::ends_of;

/// Returns the digit of a channel in the senders' rows: of `heads` the place in its ring where its
/// first message stands, of `counts` how many messages wait on it. `line` is the channel's number,
/// below 132. The digit is below 16.
#[tactic(auto, using(abt_shape::proofs::Numbering::ends))]
pub fn on_line(rows: &[u64; 12], line: usize) -> u8
    requires { line < 132 }
    ensures { (result ≡ row_of rows.now (sender_of line) (receiver_of line)) × (result < 16) }
{
    let (from, to) = ends_of(line);
    digit(rows[from as usize - 1], to)
}

/// Returns how many messages wait on all channels: 1,980 at most, on a forged network too.
pub fn messages_waiting(r: &Network) -> usize
    ensures { (length (messages_from 0 (all_lines (network_of r.now))) ≡ 16 * result) × (result ≤ 1980) }
{
    let mut k: usize = 0;
    for line in 0..132 {
        k += on_line(&r.counts, line) as usize;
    }
    k
}
