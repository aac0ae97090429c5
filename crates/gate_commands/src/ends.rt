//! A reader and a writer in memory that give and take little at a time, and fail.
ghost use Rattle.std.specs.Prelude.{◌≤◌};

use std::alloc::Global;
use std::io;
use std::io::{Error, ErrorKind, Read, Write};

/// How many bytes are given or taken at a time, and when it fails.
#[derive(Clone, Copy)]
pub struct Manner {
    /// The most bytes at a time.
    pub step: usize,
    /// How many bytes go through before it fails.
    pub most: usize,
}

impl Manner {
    /// All at once, and never failing.
    pub fn whole() -> Manner {
        Manner {
            step: usize::MAX,
            most: usize::MAX,
        }
    }

    // How many of so many bytes go through; none where it fails.
    fn allowed(self, count: usize) -> usize
        ensures { result ≤ count }
    {
        count.min(self.step).min(self.most)
    }

    // What is left of it behind so many bytes.
    fn behind(self, count: usize) -> Manner {
        Manner {
            step: self.step,
            most: self.most.saturating_sub(count),
        }
    }
}

/// A reader of the bytes `left`. Every other read, the first one too, is interrupted.
#[derive(Drop)]
pub struct Giver<'a> {
    pub left: &'a [u8],
    pub manner: Manner,
    /// The last read was interrupted.
    pub waits: bool,
}

impl Read for Giver<'_> {
    fn read(&mut self, buffer: &mut [u8]) -> io::Result<usize> {
        self.waits = !self.waits;
        if self.waits {
            return Err(Error::from(ErrorKind::Interrupted));
        }
        if self.manner.most == 0 {
            return Err(Error::from(ErrorKind::Other));
        }
        let n = self.manner.allowed(self.left.len()).min(buffer.len());
        buffer[..n].copy_from_slice(&self.left[..n]);
        self.left = &self.left[n..];
        self.manner = self.manner.behind(n);
        Ok(n)
    }
}

/// A writer that keeps the bytes `taken`. Every other write, the first one too, is interrupted.
#[derive(Drop)]
pub struct Taker {
    pub taken: Vec<u8>,
    pub manner: Manner,
    /// The last write was interrupted.
    pub waits: bool,
}

impl Taker {
    /// A writer that has taken nothing yet.
    pub fn new(alloc: Global, manner: Manner) -> Taker {
        Taker {
            taken: Vec::new(alloc),
            manner,
            waits: false,
        }
    }
}

impl Write for Taker {
    fn write(&mut self, bytes: &[u8]) -> io::Result<usize> {
        self.waits = !self.waits;
        if self.waits {
            return Err(Error::from(ErrorKind::Interrupted));
        }
        if self.manner.most == 0 {
            return Err(Error::from(ErrorKind::Other));
        }
        let n = self.manner.allowed(bytes.len());
        self.taken.extend_from_slice(&bytes[..n])?;
        self.manner = self.manner.behind(n);
        Ok(n)
    }

    fn flush(&mut self) -> io::Result<()> {
        Ok(())
    }
}
