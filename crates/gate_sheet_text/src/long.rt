//! The longest texts, and those that are one line or one byte longer.
ghost use Rattle.std.specs.Prelude.{◌≡◌, length};

use crate::printing::{put_answer, start_of};
use abt_words::printing::Screen;
use support_buffer::cursor::Cursor;

// One byte more than a text may have, all of them the beginning of a comment.
fn room() -> [u8; 1048577]
    ensures { 1048577 ≡ length result }
{
    [b'#'; 1048577]
}

// Adds the line, if there is room.
fn put_line(text: &mut Cursor<'_>, line: &[u8]) {
    if text.at <= text.buffer.len() && line.len() <= text.buffer.len() - text.at {
        text.put_all(line);
    }
}

// A first line, and another so many times.
fn put_times(o: Screen, first: &[u8], line: &[u8], times: usize) -> Screen {
    let mut text = room();
    let mut next = Cursor {
        buffer: &mut text,
        at: 0,
    };
    put_line(&mut next, first);
    for _ in 0..times {
        put_line(&mut next, line);
    }
    let n = next.at;
    put_answer(o, start_of(&text, n))
}

// A first line, and a comment up to n bytes.
fn put_padded(o: Screen, first: &[u8], n: usize) -> Screen {
    let mut text = room();
    let mut next = Cursor {
        buffer: &mut text,
        at: 0,
    };
    put_line(&mut next, first);
    put_answer(o, start_of(&text, n))
}

fn put_records(o: Screen) -> Screen {
    let gaps = b"gap 11 12 -7 -7\n";
    let o = o.put(b"= 4224 bans\n");
    let o = put_times(o, b"slots 2 2\n", b"ban 1:1 2:1\n", 4224);
    let o = o.put(b"= one ban more\n");
    let o = put_times(o, b"slots 2 2\n", b"ban 1:1 2:1\n", 4225);
    let o = o.put(b"= the longest text that is told\n");
    let o = put_times(o, b"slots 8 8 8 8 8 8 8 8 8 8 8 8\n", gaps, 4224);
    let o = o.put(b"= one gap more\n");
    put_times(o, b"slots 8 8 8 8 8 8 8 8 8 8 8 8\n", gaps, 4225)
}

/// Prints what is answered of each.
pub fn put_longs(o: Screen) -> Screen {
    let o = put_records(o).put(b"= 1048576 bytes\n");
    let o = put_padded(o, b"slots 1\n", 1048576);
    let o = o.put(b"= 1048577 bytes\n");
    let o = put_padded(o, b"slots 1\n", 1048577);
    let o = o.put(b"= 1048577 bytes, with a fault before them\n");
    put_padded(o, b"slots 1\nslots 1\n", 1048577)
}
