// Records of bytes, and their bytes laid by place: the first of each, then the second, and so on.
ghost use Rattle.std.specs.Prelude.{◌≡◌, [], ◌∷◌, ◌+◌, ◌*◌, ◌≤◌, ◌<◌, length, get_or};
ghost use Rattle.model_base.specs.Finite.{gather};
ghost use Rattle.support_buffer.specs.Abstract.{over};
ghost use Rattle.model_image_forms.specs.Places.{by_place};
ghost use Rattle.support_buffer.specs.Puts.{Room, Puts};

use support_buffer::cursor::Cursor;

/// Records of equal width, one behind the other. Count and width are both given, since either may
/// be zero.
#[derive(Clone, Copy)]
pub struct Records<'a> {
    /// The records, `width` times `count` bytes.
    pub bytes: &'a [u8],
    /// How many records there are.
    pub count: usize,
    /// How many bytes each has.
    pub width: usize,
    pub ghost long: { length bytes.now ≡ width * count },
}

impl Records<'_> {
    // The bytes at one place of each.
    fn put_place(&self, out: &mut Cursor<'_>, place: usize)
        requires inside { place < self.now.width }
        requires room { Room out.old self.now.count }
        ensures { Puts out.old self.now.count (gather self.now.count 0 (λ r. get_or self.now.bytes.now (self.now.width * r + place) 0 ∷ [])) out.new }
    {
        for r in 0..self.count {
            out.put(self.bytes[self.width * r + place]);
        }
    }

    /// Puts the first byte of each record, then the second of each, and so on. Needs room for all
    /// bytes. Equals `by_place` of model_image_forms/specs/Places.antt.
    pub fn put_by_place(&self, out: &mut Cursor<'_>)
        requires { Room out.old (self.now.width * self.now.count) }
        ensures { Puts out.old (self.now.width * self.now.count) (by_place self.now.count self.now.width self.now.bytes.now) out.new }
    {
        for place in 0..self.width {
            self.put_place(out, place);
        }
    }

    /// Lays the records by place, as `put_by_place` does, in a buffer from its beginning on. Needs
    /// a buffer at least as long as the records; bytes past them stay.
    pub fn lay_by_place(&self, out: &mut [u8])
        requires { self.now.width * self.now.count ≤ length out.old }
        ensures { out.new ≡ over 0 (by_place self.now.count self.now.width self.now.bytes.now) out.old }
    {
        let mut next = Cursor { buffer: out, at: 0 };
        self.put_by_place(&mut next);
    }
}
