// The second form of an image in the first, and the first of one in the second.
ghost use Rattle.std.specs.Prelude.{◌≡◌, ◌∷◌, ◌*◌, ◌/◌, ◌%◌, ◌≤◌, length};
ghost use Rattle.support_buffer.specs.Abstract.{over};
ghost use Rattle.model_image.specs.Bytes.{stretch};
ghost use Rattle.model_image_forms.specs.Packing.{LowSlots};
ghost use Rattle.model_image_forms.specs.Forms.{packed_messages, unpacked_messages, small, large};
ghost use Rattle.support_buffer.specs.Puts.{Room, Puts};
ghost use Rattle.abt_image_mover.specs.Whole.{Whole, Packable};

use crate::packing::{pack_all, put_all_unpacked};
use crate::places::Records;
use support_buffer::cursor::Cursor;

// The number of the form, and the other bytes in front of the agents' records.
fn put_front(out: &mut Cursor<'_>, form: u8, s: &[u8])
    requires bytes { 544 ≤ length s.now }
    requires room { Room out.old 544 }
    ensures { Puts out.old 544 (form ∷ stretch 1 543 s.now) out.new }
{
    out.put(form);
    out.put_all(&s[1..544]);
}

// The messages, packed and then laid by place.
fn put_packed_messages(out: &mut Cursor<'_>, s: &[u8])
    requires messages { (length s.now % 16 ≡ 0) × LowSlots s.now × (length s.now ≤ 16896) }
    requires room { Room out.old (10 * (length s.now / 16)) }
    ensures { Puts out.old (10 * (length s.now / 16)) (packed_messages s.now) out.new }
{
    let count = s.len() / 16;
    let mut records = [0u8; 10560];
    pack_all(&mut records, s);
    let packed = Records {
        bytes: &records[..10 * count],
        count,
        width: 10,
    };
    packed.put_by_place(out);
}

// The messages, laid by place and then unpacked: the inverse of `put_packed_messages`.
fn put_unpacked_messages(out: &mut Cursor<'_>, s: &[u8])
    requires messages { (length s.now % 10 ≡ 0) × (length s.now ≤ 10560) }
    requires room { Room out.old (16 * (length s.now / 10)) }
    ensures { Puts out.old (16 * (length s.now / 10)) (unpacked_messages s.now) out.new }
{
    let mut records = [0u8; 10560];
    let by_place = Records {
        bytes: s,
        count: 10,
        width: s.len() / 10,
    };
    by_place.lay_by_place(&mut records);
    put_all_unpacked(out, &records[..s.len()]);
}

/// Puts the second form of bytes in the first from the buffer's beginning on, and returns its
/// length. Needs `Packable` bytes (specs/Whole.antt) and room for the second form; bytes past it
/// stay. Equals `small` of model_image_forms/specs/Forms.antt.
pub fn put_small(out: &mut [u8], s: &[u8]) -> usize
    requires bytes { Packable s.now }
    requires room { length (small s.now) ≤ length out.old }
    ensures long { result ≡ length (small s.now) }
    ensures put { out.new ≡ over 0 (small s.now) out.old }
{
    let n = s[1] as usize;
    let heads = 544 + 170 * n;
    let messages = heads + 264;
    let mut next = Cursor { buffer: out, at: 0 };
    put_front(&mut next, 2, s);
    let scanners = Records {
        bytes: &s[544..heads],
        count: n,
        width: 170,
    };
    scanners.put_by_place(&mut next);
    next.put_all(&s[heads..messages]);
    put_packed_messages(&mut next, &s[messages..]);
    next.at
}

/// Puts the first form of bytes in the second from the buffer's beginning on, and returns its
/// length. Needs `Whole` bytes (specs/Whole.antt) and room for the first form; bytes past it stay.
/// Equals `large` of model_image_forms/specs/Forms.antt.
pub fn put_large(out: &mut [u8], s: &[u8]) -> usize
    requires bytes { Whole 10 s.now }
    requires room { length (large s.now) ≤ length out.old }
    ensures long { result ≡ length (large s.now) }
    ensures put { out.new ≡ over 0 (large s.now) out.old }
{
    let n = s[1] as usize;
    let heads = 544 + 170 * n;
    let messages = heads + 264;
    let mut next = Cursor { buffer: out, at: 0 };
    put_front(&mut next, 1, s);
    let places = Records {
        bytes: &s[544..heads],
        count: 170,
        width: n,
    };
    places.put_by_place(&mut next);
    next.put_all(&s[heads..messages]);
    put_unpacked_messages(&mut next, &s[messages..]);
    next.at
}
