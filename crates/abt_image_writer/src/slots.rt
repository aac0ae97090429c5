// A packed word's digits, put one behind the other.
ghost use Rattle.model_image.specs.Image.{slots};
ghost use Rattle.abt_packed.specs.Packed.{assignment};
ghost use Rattle.support_buffer.specs.Puts.{Room, Puts};

use abt_packed::digit;
use support_buffer::cursor::Cursor;

/// Puts the digits 1 to 12 of a packed word, a byte each. Needs room for them. Equals `slots` of
/// model_image/specs/Image.antt.
pub fn put_slots(out: &mut Cursor<'_>, word: u64)
    requires { Room out.old 12 }
    ensures { Puts out.old 12 (slots (assignment word)) out.new }
{
    for k in 1..=12 {
        out.put(digit(word, k));
    }
}
