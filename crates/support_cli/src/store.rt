// Files by their names.
ghost use Rattle.std.specs.Prelude.{ℕ, List, IfSome};
ghost use Rattle.support_cli.specs.Files.{Held, Unknown, IsFilled, ReadsFile};

use crate::Input;
use std::fs;
use std::rt::Files;

/// Where a program's files are.
pub trait Store {
    /// What each name holds, where that is known: `Held` of specs/Files.antt.
    ghost held: { Self → List ℕ → Held } = { λ _ _. Unknown };

    /// Reads a named file's bytes into a lent buffer, as many as it takes, and returns how many
    /// they are; where the buffer is full, the file may have more. The rest of the buffer is zero.
    /// Returns `None` where the file cannot be read.
    fn read(&self, name: &[u8], buffer: &mut [u8]) -> Option<usize>
        ensures { ReadsFile (held self.now name.now) result buffer.new };
}

/// The files of the system. A name that is not UTF-8 names no file.
#[derive(Clone, Copy)]
pub struct SystemFiles<'a, R> {
    system: &'a R,
}

impl<'a, R: Files> SystemFiles<'a, R> {
    /// Returns the files of this system.
    pub fn new(system: &'a R) -> SystemFiles<'a, R> {
        SystemFiles { system }
    }

    // Reads a file's bytes to the start of the buffer, and returns how many they are.
    fn read_open(&self, name: &[u8], buffer: &mut [u8]) -> Option<usize>
        ensures { IfSome result (λ n. IsFilled n buffer.new) }
    {
        let path = str::from_utf8(name).ok()?;
        let file = fs::open(self.system, path).ok()?;
        let mut input = Input::new(file);
        let count = input.read_full(buffer);
        if input.has_failed() {
            None
        } else {
            Some(count)
        }
    }
}

impl<R: Files> Store for SystemFiles<'_, R> {
    fn read(&self, name: &[u8], buffer: &mut [u8]) -> Option<usize> {
        let read = self.read_open(name, buffer);
        if read.is_none() {
            buffer.fill(0);
        }
        read
    }
}
