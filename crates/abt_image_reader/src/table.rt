// The problem of an image: its domains and its bans.
ghost use Rattle.std.specs.Prelude.{◌≡◌, ◌≤◌, ◌<◌, length};
ghost use Rattle.model_image.specs.Bytes.{stretch};
ghost use Rattle.model_image.specs.Reading.{ban_place, bans_in};

use crate::bytes::eight_bytes;
use abt_shape::places::words_before;

/// Reads the twelve domains, bytes 4 to 15. Needs at least 16 bytes.
#[tactic(auto, unfolding(model_image::specs::Bytes::stretch))]
pub fn domains(s: &[u8]) -> [u8; 12]
    requires { 16 ≤ length s.now }
    ensures { result ≡ stretch 4 12 s.now }
{
    let mut domains = [0u8; 12];
    domains.copy_from_slice(&s[4..16]);
    domains
}

// Where the word of lower agent i and higher agent j stands among the 66 of an image, from 0: by
// lower, then higher agent.
fn ban_place(i: usize, j: usize) -> usize
    requires { (1 ≤ i) × (i < j) × (j ≤ 12) }
    ensures { (result ≡ ban_place i j) × (result < 66) }
{
    (i - 1) * (24 - i) / 2 + (j - 1 - i)
}

/// Reads the ban table: 66 words, in the network's order, by higher, then lower agent. Equals
/// `bans_in` of model_image/specs/Reading.antt.
pub fn bans(s: &[u8]) -> [u64; 66]
    ensures { result ≡ bans_in s.now }
{
    let mut words = [0u64; 66];
    for j in 2..=12u8 {
        for i in 1..j {
            words[words_before(j) + i as usize - 1] = eight_bytes(
                s,
                16 + 8 * ban_place(i as usize, j as usize),
            );
        }
    }
    words
}
