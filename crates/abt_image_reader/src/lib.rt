//! Reads the image of a network in the first form. docs/FORMATS.md, 'The image'. Bytes that are not
//! too short and name at most 12 agents become a candidate network; `abt_image_writer` writes it
//! again, and the bytes are accepted only where they are those written. Start reading at
//! `load_first`, which equals `load_first` of model_image/specs/Reading.antt; each module reads a
//! part of the image.
#![tactic(auto)]

ghost use Rattle.std.specs.Prelude.{◌≡◌, ◌&&◌, ◌≤◌, length, get_or};
ghost use Rattle.model_base.specs.Same.{same_numbers};
ghost use Rattle.model_network.specs.Shape.{in_shape};
ghost use Rattle.abt_record.specs.Abstract.{network_of};
ghost use Rattle.model_image.specs.Image.{image};
ghost use Rattle.model_image.specs.Reading.{parse, load_first};
ghost use Rattle.abt_image_reader.specs.Narrow.{narrow};
ghost use Rattle.abt_image_reader.specs.Loaded.{loaded_of};

use abt_image_writer::store;
use abt_record::Network;
use support_rejection::Rejection;

mod agents;
pub mod bytes;
mod lines;
mod table;

use agents::agents;
use lines::{places, read_lines, rows};
use table::{bans, domains};

// The network that bytes would be the image of, whatever they are. No byte is rejected here:
// `is_image` writes what is read again, and compares.
fn candidate(s: &[u8]) -> Network
    requires { (16 ≤ length s.now) × (get_or s.now 1 0 ≤ 12) }
    ensures { network_of result ≡ narrow (parse s.now) }
{
    let n = s[1];
    let lines = read_lines(s, n as usize);
    Network {
        count: n,
        rule: s[2],
        domains: domains(s),
        bans: bans(s),
        unsolvable: s[3] == 1,
        agents: agents(s, n as usize),
        heads: [0; 12],
        counts: rows(&lines),
        places: places(s, &lines),
    }
}

// The network is in shape, and s is its image. No image is longer than the buffer.
fn is_image(r: Network, s: &[u8]) -> bool
    ensures { result ≡ (in_shape (network_of r) && same_numbers (image (network_of r)) s.now) }
{
    let mut buffer = [0u8; 19744];
    match store(r, &mut buffer) {
        Ok(length) => &buffer[..length] == s,
        Err(_) => false,
    }
}

/// Reads an image in the first form, and returns the network that it is the image of.
///
/// Error: `BadImage` (13) unless the bytes are the image of a network in shape. Bytes behind the
/// image, zeros too, make it no image. Equals `load_first` of model_image/specs/Reading.antt.
pub fn load_first(s: &[u8]) -> Result<Network, Rejection>
    ensures { loaded_of result ≡ load_first s.now }
{
    if s.len() < 808 || 12 < s[1] {
        return Err(Rejection::BadImage);
    }
    let network = candidate(s);
    if is_image(network, s) {
        Ok(network)
    } else {
        Err(Rejection::BadImage)
    }
}
