// The input of a program.
ghost use Rattle.std.specs.Prelude.{◌≡◌, ◌≤◌, ◌<◌, true, false, length, take};
ghost use Rattle.std.specs.Io.KnownBytes.{Consumes, IsAtEnd};
ghost use Rattle.support_cli.specs.Streams.{input_of, Fills};

use std::io::{ErrorKind, Read};

/// What a program reads, and whether a read has failed. A failed read is the end of the input.
#[derive(Drop)]
pub struct Input<R> {
    reader: R,
    failed: bool,
}

// How many bytes a buffer was filled with, and whether a failed read ended that.
#[derive(Clone, Copy)]
struct Filled {
    count: usize,
    failed: bool,
}

// Reads until the buffer is full, the input ends or a read fails. A read that is interrupted is
// tried again.
fn fill<R: Read>(reader: &mut R, buffer: &mut [u8]) -> Filled
    ensures inside { result.count ≤ length buffer.new }
    ensures taken { Consumes (R.remaining reader.old) (R.remaining reader.new) (take result.count buffer.new) }
    ensures ends { result.failed ≡ false → result.count < length buffer.new → IsAtEnd (R.remaining reader.new) }
{
    let mut count = 0;
    for _ in 0..u64::MAX {
        if count >= buffer.len() {
            return Filled {
                count,
                failed: false,
            };
        }
        match reader.read(&mut buffer[count..]) {
            Ok(0) => {
                return Filled {
                    count,
                    failed: false,
                };
            }
            Ok(n) => count += n,
            Err(e) => {
                if e.kind() != ErrorKind::Interrupted {
                    return Filled {
                        count,
                        failed: true,
                    };
                }
            }
        }
    }
    Filled {
        count,
        failed: true,
    }
}

impl<R: Read> Input<R> {
    /// Makes an input of this reader, where no read has failed.
    pub fn new(reader: R) -> Input<R>
        ensures left { (input_of R.remaining result).known ≡ R.remaining reader }
        ensures good { (input_of R.remaining result).failed ≡ false }
    {
        Input {
            reader,
            failed: false,
        }
    }

    /// Returns whether a read has failed.
    pub fn has_failed(&self) -> bool
        ensures { result ≡ (input_of R.remaining self.now).failed }
    {
        self.failed
    }

    /// Reads until the buffer is full, the input ends or a read fails, and returns how many bytes
    /// it put at the buffer's start. The rest of the buffer is zero. After a failed read it reads
    /// nothing.
    pub fn read_full(&mut self, buffer: &mut [u8]) -> usize
        ensures { Fills (length buffer.old) buffer.new result (input_of R.remaining self.old) (input_of R.remaining self.new) }
    {
        let mut count = 0;
        if !self.failed {
            let filled = fill(&mut self.reader, buffer);
            count = filled.count;
            self.failed = filled.failed;
        }
        buffer[count..].fill(0);
        count
    }

    /// Returns the reader.
    pub fn into_reader(self) -> R
        ensures { R.remaining result ≡ (input_of R.remaining self).known }
    {
        self.reader
    }
}
