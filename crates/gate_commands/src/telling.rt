//! What a run is told as: lines in letters that can be read.
use std::alloc::AllocError;

// The letters of hexadecimal digits.
const DIGITS: [u8; 16] = *b"0123456789abcdef";

fn push_byte(text: &mut Vec<u8>, byte: u8) -> Result<(), AllocError> {
    match byte {
        b'\n' => text.extend_from_slice(b"\\n"),
        b'\\' => text.extend_from_slice(b"\\\\"),
        32..=126 => text.extend_from_slice(&[byte]),
        _ => {
            let (high, low) = (DIGITS[(byte / 16) as usize], DIGITS[(byte % 16) as usize]);
            text.extend_from_slice(&[b'\\', b'x', high, low])
        }
    }
}

/// Adds a line: what stands before the bytes, then the bytes, with an escape for a backslash and for
/// each byte that is not printable ASCII.
pub fn push_line(text: &mut Vec<u8>, before: &[u8], bytes: &[u8]) -> Result<(), AllocError> {
    text.extend_from_slice(before)?;
    for byte in bytes {
        push_byte(text, *byte)?;
    }
    text.extend_from_slice(b"\n")
}

/// Adds a line that ends in a number.
pub fn push_number(text: &mut Vec<u8>, before: &[u8], number: u64) -> Result<(), AllocError> {
    let mut digits = [0u8; 20];
    let count = io::decimal(number, &mut digits);
    push_line(text, before, &digits[..count])
}
