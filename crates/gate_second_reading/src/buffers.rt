//! A buffer that is lent to a writer, and whether it is as it was.
ghost use Rattle.std.specs.Prelude.{◌≡◌};
ghost use Rattle.gate_second_reading.specs.Buffers.{marked_from};

/// What stands in the buffer before something is written.
pub const MARK: u8 = 170;

/// From byte `from` on the buffer is as it was. Equals `marked_from` of specs/Buffers.antt.
pub fn untouched(bytes: &[u8], from: usize) -> bool
    ensures { result ≡ marked_from bytes.now from }
{
    bytes.iter().skip(from).all(|b| *b == MARK)
}
