// Messages packed for the second form, and unpacked again.
ghost use Rattle.std.specs.Prelude.{◌≡◌, ◌*◌, ◌/◌, ◌%◌, ◌≤◌, length};
ghost use Rattle.support_buffer.specs.Abstract.{over};
ghost use Rattle.model_image_forms.specs.Places.{each_record};
ghost use Rattle.model_image_forms.specs.Packing.{packed, unpacked, LowSlots};
ghost use Rattle.support_buffer.specs.Puts.{Room, Puts};

use support_buffer::cursor::Cursor;

// One message, the values of its left side two to a byte, the lower-numbered agent in the low half.
fn put_packed(out: &mut Cursor<'_>, m: &[u8])
    requires message { (length m.now ≡ 16) × LowSlots m.now }
    requires room { Room out.old 10 }
    ensures { Puts out.old 10 (packed m.now) out.new }
{
    out.put_all(&m[..4]);
    for i in 0..6 {
        out.put(m[4 + 2 * i] + 16 * m[5 + 2 * i]);
    }
}

// One message, with a byte for each value of its left side.
fn put_unpacked(out: &mut Cursor<'_>, m: &[u8])
    requires message { length m.now ≡ 10 }
    requires room { Room out.old 16 }
    ensures { Puts out.old 16 (unpacked m.now) out.new }
{
    out.put_all(&m[..4]);
    for slots in &m[4..] {
        out.put(slots % 16);
        out.put(slots / 16);
    }
}

/// Packs messages of 16 bytes into 10 bytes each, from the buffer's beginning on; bytes past them
/// stay. Needs the values of the left sides below 16, and room. Each equals `packed` of
/// model_image_forms/specs/Packing.antt.
pub fn pack_all(out: &mut [u8], s: &[u8])
    requires messages { LowSlots s.now }
    requires room { 10 * (length s.now / 16) ≤ length out.old }
    ensures { out.new ≡ over 0 (each_record (length s.now / 16) 16 packed s.now) out.old }
{
    let mut next = Cursor { buffer: out, at: 0 };
    for r in 0..s.len() / 16 {
        put_packed(&mut next, &s[16 * r..16 * r + 16]);
    }
}

/// Puts messages of 10 bytes, unpacked to 16 bytes each. Needs room for them. Each equals
/// `unpacked` of model_image_forms/specs/Packing.antt.
pub fn put_all_unpacked(out: &mut Cursor<'_>, s: &[u8])
    requires { Room out.old (16 * (length s.now / 10)) }
    ensures { Puts out.old (16 * (length s.now / 10)) (each_record (length s.now / 10) 10 unpacked s.now) out.new }
{
    for r in 0..s.len() / 10 {
        put_unpacked(out, &s[10 * r..10 * r + 10]);
    }
}
