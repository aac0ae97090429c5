// An output of a program, and what is put there.
ghost use Rattle.std.specs.Prelude.{◌≡◌, ◌≤◌, ℕ, true, false, length, take};
ghost use Rattle.std.specs.Io.KnownBytes.{Appends};
ghost use Rattle.support_cli.specs.Streams.{output_of, Puts};

use std::io::{ErrorKind, Write};

/// Where a program writes, and whether a write has failed. Nothing is written after a failed write.
#[derive(Drop)]
pub struct Output<W> {
    writer: W,
    failed: bool,
}

// Writes all of the bytes, and says whether all were taken. A write that is interrupted is tried
// again.
fn put_all<W: Write>(writer: &mut W, bytes: &[u8]) -> bool
    ensures some { (n : ℕ) × Appends (W.contents writer.old) (W.contents writer.new) (take n bytes.now) }
    ensures all { result ≡ true → Appends (W.contents writer.old) (W.contents writer.new) bytes.now }
{
    let mut done = 0;
    for _ in 0..u64::MAX {
        if done >= bytes.len() {
            return true;
        }
        match writer.write(&bytes[done..]) {
            Ok(0) => return false,
            Ok(n) => done += n,
            Err(e) => {
                if e.kind() != ErrorKind::Interrupted {
                    return false;
                }
            }
        }
    }
    false
}

impl<W: Write> Output<W> {
    /// Makes an output of this writer, where no write has failed.
    pub fn new(writer: W) -> Output<W>
        ensures holds { (output_of W.contents result).known ≡ W.contents writer }
        ensures good { (output_of W.contents result).failed ≡ false }
    {
        Output {
            writer,
            failed: false,
        }
    }

    /// Returns whether a write has failed.
    pub fn has_failed(&self) -> bool
        ensures { result ≡ (output_of W.contents self.now).failed }
    {
        self.failed
    }

    /// Writes all of the bytes behind the others. Where a write fails, a beginning of them may
    /// stand there, and the output has failed; a failed output stays as it is.
    pub fn put(&mut self, bytes: &[u8])
        ensures { Puts bytes.now (output_of W.contents self.old) (output_of W.contents self.new) }
    {
        if !self.failed {
            self.failed = !put_all(&mut self.writer, bytes);
        }
    }

    /// Returns the writer.
    pub fn into_writer(self) -> W
        ensures { W.contents result ≡ (output_of W.contents self).known }
    {
        self.writer
    }
}
