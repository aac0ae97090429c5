//! The lines of the cases, one after the other.
ghost use Rattle.std.specs.Prelude.{◌<◌};

use crate::ends::{Giver, Manner, Taker};
use crate::programs::{Command, run_program};
use crate::shelf::{File, Shelf};
use crate::telling::{push_line, push_number};
use std::alloc::{AllocError, Global};
use std::io::Write;
use std::mem;
use support_buffer::read_number;
use support_cli::{Input, Output};

// The case under hand: its command line, its input, and how the input is read and the outputs are
// written.
#[derive(Drop)]
struct Desk {
    alloc: Global,
    words: Vec<Vec<u8>>,
    input: Vec<u8>,
    shelf: Shelf,
    reader: Manner,
    output: Manner,
    errors: Manner,
}

// ---- lines

// The number of a word; where there is none, the greatest, which is never reached.
fn number_or_all(word: Option<&[u8]>) -> usize {
    word.and_then(read_number).unwrap_or(u64::MAX) as usize
}

// Reads `STEP [MOST]`.
fn manner_of(text: &[u8]) -> Manner {
    let mut numbers = text.split(|b| *b == b' ');
    let step = number_or_all(numbers.next()).max(1);
    Manner {
        step,
        most: number_or_all(numbers.next()),
    }
}

// The value of a hexadecimal digit; that of any other letter is 0.
fn value_of(digit: u8) -> u8
    ensures { result < 16 }
{
    match digit {
        b'0'..=b'9' => digit - b'0',
        b'a'..=b'f' => digit - b'a' + 10,
        _ => 0,
    }
}

fn push_hex(input: &mut Vec<u8>, digits: &[u8]) -> Result<(), AllocError> {
    for pair in digits.chunks_exact(2) {
        if let [high, low] = pair {
            input.extend_from_slice(&[16 * value_of(*high) + value_of(*low)])?;
        }
    }
    Ok(())
}

// Adds zeros, at most 100,000.
fn push_zeros(input: &mut Vec<u8>, count: usize) -> Result<(), AllocError> {
    for _ in 0..count.min(100000) {
        input.extend_from_slice(&[0])?;
    }
    Ok(())
}

// ---- a run

impl Desk {
    fn new(alloc: Global) -> Desk {
        Desk {
            alloc,
            words: Vec::new(alloc),
            input: Vec::new(alloc),
            shelf: Shelf {
                files: Vec::new(alloc),
            },
            reader: Manner::whole(),
            output: Manner::whole(),
            errors: Manner::whole(),
        }
    }

    // What the program of this name does, as text.
    fn told(&self, name: &[u8]) -> Result<Vec<u8>, AllocError> {
        let giver = Giver {
            left: self.input.as_slice(),
            manner: self.reader,
            waits: false,
        };
        let mut input = Input::new(giver);
        let mut output = Output::new(Taker::new(self.alloc, self.output));
        let mut errors = Output::new(Taker::new(self.alloc, self.errors));
        let command = Command {
            alloc: self.alloc,
            files: &self.shelf,
            words: &self.words,
        };
        let status = run_program(name, &command, &mut input, &mut output, &mut errors);
        let mut text = Vec::new(self.alloc);
        match status {
            Some(status) => push_number(&mut text, b"status ", u64::from(status.code()))?,
            None => push_line(&mut text, b"no program ", name)?,
        }
        push_line(&mut text, b"output ", &output.into_writer().taken)?;
        push_line(&mut text, b"errors ", &errors.into_writer().taken)?;
        push_number(&mut text, b"left ", input.into_reader().left.len() as u64)?;
        Ok(text)
    }

    // What the input is so far becomes the file of this name, and the input begins anew.
    fn put_away(&mut self, name: &[u8]) -> Result<(), AllocError> {
        let bytes = mem::replace(&mut self.input, Vec::new(self.alloc));
        let name = name.to_vec(self.alloc)?;
        self.shelf.files.push(File { name, bytes })?;
        Ok(())
    }

    // Follows a line that builds a case. Any other is passed over.
    fn follow(&mut self, name: &[u8], rest: &[u8]) -> Result<(), AllocError> {
        match name {
            b"word" => self.words.push(rest.to_vec(self.alloc)?)?,
            b"text" => {
                self.input.extend_from_slice(rest)?;
                self.input.extend_from_slice(b"\n")?;
            }
            b"zeros" => push_zeros(&mut self.input, number_or_all(Some(rest)))?,
            b"hex" => push_hex(&mut self.input, rest)?,
            b"file" => self.put_away(rest)?,
            b"reader" => self.reader = manner_of(rest),
            b"output" => self.output = manner_of(rest),
            b"errors" => self.errors = manner_of(rest),
            _ => {}
        }
        Ok(())
    }
}

// A line's first word, and what stands behind the blank.
fn split_line(line: &[u8]) -> (&[u8], &[u8]) {
    match line.iter().position(|b| *b == b' ') {
        Some(at) => (&line[..at], &line[at + 1..]),
        None => (line, b""),
    }
}

/// Follows the text line by line, and puts what each program did on `output`. Fails where memory
/// runs out.
pub fn play<W: Write>(
    alloc: Global,
    text: &[u8],
    output: &mut Output<W>,
) -> Result<(), AllocError> {
    let mut desk = Desk::new(alloc);
    for line in text.split(|b| *b == b'\n') {
        let (name, rest) = split_line(line);
        if name == b"run".as_slice() {
            let told = desk.told(rest)?;
            output.put(&told);
            desk = Desk::new(alloc);
        } else if name == b"case".as_slice() {
            output.put(line);
            output.put(b"\n");
        } else {
            desk.follow(name, rest)?;
        }
    }
    Ok(())
}
