//! Files in memory.
ghost use Rattle.std.specs.Prelude.{IfSome};
ghost use Rattle.support_cli.specs.Files.{IsFilled};

use support_cli::{Input, Store};

/// A file, by its name.
#[derive(Drop)]
pub struct File {
    pub name: Vec<u8>,
    pub bytes: Vec<u8>,
}

/// The files of a case.
#[derive(Drop)]
pub struct Shelf {
    pub files: Vec<File>,
}

impl Shelf {
    // The bytes of the file of this name.
    fn bytes_of(&self, name: &[u8]) -> Option<&[u8]> {
        let file = self.files.iter().find(|file| file.name.as_slice() == name)?;
        Some(file.bytes.as_slice())
    }

    // Copies the file's first bytes into the buffer, and returns how many.
    fn read_bytes(&self, name: &[u8], buffer: &mut [u8]) -> Option<usize>
        ensures { IfSome result (λ n. IsFilled n buffer.new) }
    {
        let bytes = self.bytes_of(name)?;
        let mut input = Input::new(bytes);
        Some(input.read_full(buffer))
    }
}

impl Store for Shelf {
    fn read(&self, name: &[u8], buffer: &mut [u8]) -> Option<usize> {
        let read = self.read_bytes(name, buffer);
        if read.is_none() {
            buffer.fill(0);
        }
        read
    }
}
