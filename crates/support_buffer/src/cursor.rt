// Bytes put into a lent buffer one behind the other.
ghost use Rattle.std.specs.Prelude.{[], ◌∷◌, length};
ghost use Rattle.support_buffer.specs.Puts.{Room, Puts};

use crate::put;

/// A buffer that a caller lends, and the place where the next byte goes.
#[derive(Drop)]
pub struct Cursor<'a> {
    /// The lent bytes.
    pub buffer: &'a mut [u8],
    /// Where the next byte goes: the length written, for a writer that begins at 0.
    pub at: usize,
}

impl Cursor<'_> {
    /// Puts a byte behind those written. The buffer must have room for it.
    pub fn put(&mut self, byte: u8)
        requires { Room self.old 1 }
        ensures { Puts self.old 1 (byte ∷ []) self.new }
    {
        self.buffer[self.at] = byte;
        self.at += 1;
    }

    /// Puts all these bytes behind those written. The buffer must have room for them.
    pub fn put_all(&mut self, bytes: &[u8])
        requires { Room self.old (length bytes.now) }
        ensures { Puts self.old (length bytes.now) bytes.now self.new }
    {
        put(self.buffer, self.at, bytes);
        self.at += bytes.len();
    }
}
