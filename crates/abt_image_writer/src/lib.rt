//! Writes the image of a network in the first form into a lent buffer. docs/FORMATS.md, 'The
//! image'. Stands on `abt_record` (the network), `abt_packed` (packed words) and `support_buffer`
//! (the cursor). Start reading at `store`: it tests the shape and the room, then puts the parts in
//! the order of the image, one module for each part. The bytes are those of `image` of
//! model_image/specs/Image.antt.
#![tactic(auto)]

ghost use Rattle.std.specs.Prelude.{◌≡◌, ◌≤◌, length};
ghost use Rattle.abt_record.specs.Abstract.{network_of};
ghost use Rattle.support_buffer.specs.Abstract.{over, written_of, InBuffer};
ghost use Rattle.model_image.specs.Image.{image};
ghost use Rattle.model_image_forms.specs.Forms.{First};
ghost use Rattle.model_image_forms.specs.Writing.{store as store_by};

use abt_record::Network;
use support_rejection::Rejection;

mod agents;
mod bans;
mod header;
mod lines;
mod messages;
mod slots;

use agents::put_agents;
use bans::put_bans;
use header::put_header;
use lines::messages_waiting;
use messages::{put_heads, put_messages};
use support_buffer::cursor::Cursor;

// The whole image, from the buffer's beginning on.
#[tactic(auto, using(crate::proofs::Stored::image_long), unfolding(abt_record::specs::Abstract::network_of, abt_record::specs::Abstract::problem_of))]
fn put_image(out: &mut [u8], r: &Network)
    requires few { r.now.count ≤ 12 }
    requires room { length (image (network_of r.now)) ≤ length out.old }
    ensures { out.new ≡ over 0 (image (network_of r.now)) out.old }
{
    let mut next = Cursor { buffer: out, at: 0 };
    put_header(&mut next, r);
    put_bans(&mut next, r);
    put_agents(&mut next, r);
    put_heads(&mut next, r);
    put_messages(&mut next, r);
}

/// Writes the image of a network in the first form, and returns its length: 808 + 170 * n + 16 * k
/// bytes for n agents and k messages, 19,744 at most. The buffer begins with the image then, and
/// bytes past it stay.
///
/// Errors: `BadShape` (5) where the network is out of shape, then `ShortBuffer` (12) where the
/// buffer is shorter than the image. The buffer is untouched in both. Equals `store` of
/// model_image_forms/specs/Writing.antt for the form `First`.
pub fn store(r: Network, out: &mut [u8]) -> Result<usize, Rejection>
    ensures out_after { written_of result out.new ≡ store_by First (network_of r) out.old }
    ensures length_in_bounds { InBuffer result out.new }
{
    if !r.is_in_shape() {
        return Err(Rejection::BadShape);
    }
    let length = 808 + 170 * r.count as usize + 16 * messages_waiting(&r);
    if out.len() < length {
        return Err(Rejection::ShortBuffer);
    }
    put_image(out, &r);
    Ok(length)
}
