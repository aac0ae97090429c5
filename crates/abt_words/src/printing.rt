//! Printing part by part, on any writer.
ghost use Rattle.std.specs.Prelude.{◌≡◌, false, ◌<◌, ◌++◌};
ghost use Rattle.model_network.specs.Run.{ending_word};
ghost use Rattle.abt_engine.specs.Answers.{ending_of};
ghost use Rattle.model_base.specs.Decimal.{decimal, newline};
ghost use Rattle.support_cli.specs.Streams.{Puts};
ghost use Rattle.abt_words.specs.Printing.{state_of, hex_digit, hex_byte};

use crate::word_for;
use abt_engine::Ending;
use std::io::Write;
use std::rt::Stdout;
use support_buffer::append_number;
use support_buffer::cursor::Cursor;
use support_cli::Output;

/// An output, and whether a write to it has failed: nothing more is written there then. Each part
/// takes it by value and hands it on, so that a line reads as it is printed.
#[derive(Clone, Copy)]
pub struct Out<W> {
    writer: W,
    failed: bool,
}

// A digit of 16, in lower case.
#[tactic(auto, unfolding(crate::specs::Printing::hex_digit))]
fn hex_digit(k: u8) -> u8
    requires { k < 16 }
    ensures { result ≡ hex_digit k }
{
    if k < 10 { b'0' + k } else { b'a' - 10 + k }
}

impl<W: Write + Copy> Out<W> {
    /// Returns the output that this writer is, where nothing has failed.
    pub fn new(writer: W) -> Out<W>
        ensures holds { (state_of W.contents result).known ≡ W.contents writer }
        ensures good { (state_of W.contents result).failed ≡ false }
    {
        Out {
            writer,
            failed: false,
        }
    }

    /// Returns whether a write has failed.
    pub fn has_failed(self) -> bool
        ensures { result ≡ (state_of W.contents self).failed }
    {
        self.failed
    }

    /// Puts all of the bytes behind the others. Where a write fails, a beginning of them.
    pub fn put(self, bytes: &[u8]) -> Out<W>
        ensures { Puts bytes.now (state_of W.contents self) (state_of W.contents result) }
    {
        if self.failed {
            return self;
        }
        let mut output = Output::new(self.writer);
        output.put(bytes);
        let failed = output.has_failed();
        Out {
            writer: output.into_writer(),
            failed,
        }
    }

    /// Puts a number in decimal, without leading zeros.
    pub fn number(self, n: u64) -> Out<W>
        ensures { Puts (decimal n) (state_of W.contents self) (state_of W.contents result) }
    {
        let mut digits = [0u8; 20];
        let mut next = Cursor {
            buffer: &mut digits,
            at: 0,
        };
        append_number(&mut next, n);
        let count = next.at;
        self.put(&digits[..count])
    }

    /// Puts a line: what stands before a number, the number, and a newline.
    pub fn line(self, before: &[u8], n: u64) -> Out<W>
        ensures { Puts (before.now ++ (decimal n ++ newline)) (state_of W.contents self) (state_of W.contents result) }
    {
        self.put(before).number(n).put(b"\n")
    }

    /// Puts a blank, and a byte in two hexadecimal digits, in lower case.
    #[tactic(auto, unfolding(crate::specs::Printing::hex_byte))]
    pub fn byte(self, b: u8) -> Out<W>
        ensures { Puts (hex_byte b) (state_of W.contents self) (state_of W.contents result) }
    {
        self.put(&[b' ', hex_digit(b / 16), hex_digit(b % 16)])
    }

    /// Puts the word for how a run ended.
    pub fn ending(self, e: Ending) -> Out<W>
        ensures { Puts (ending_word (ending_of e)) (state_of W.contents self) (state_of W.contents result) }
    {
        self.put(word_for(e))
    }
}

/// Standard output.
pub type Screen = Out<Stdout>;
