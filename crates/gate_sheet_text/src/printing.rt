//! What `scribe` answers, printed.
use abt_words::printing::Screen;
use sheet_text_messages::rejection_text;
use sheet_text_reader::{RejectedLine, TextRejection, read_sheet};
use sheet_text_writer::write_text;

/// The first n bytes, or all where there are not so many.
pub fn start_of(s: &[u8], n: usize) -> &[u8] {
    s.get(..n).unwrap_or(s)
}

// Bytes, eight on a line.
fn put_bytes(out: Screen, s: &[u8]) -> Screen {
    let mut o = out;
    for (i, b) in s.iter().enumerate() {
        o = o.byte(*b);
        if i % 8 == 7 {
            o = o.put(b"\n");
        }
    }
    o
}

// What `scribe text` answers.
fn put_text(o: Screen, sheet: &[u8]) -> Screen {
    let mut text = [0u8; 67614];
    match write_text(sheet, &mut text) {
        Ok(n) => o.put(start_of(&text, n)),
        Err(rejection) => o.line(b"refused ", u64::from(rejection.number())),
    }
}

// A sheet of up to five records, and its text; of a longer one, only how long the two are.
fn put_sheet(o: Screen, sheet: &[u8]) -> Screen {
    let o = o.line(b"sheet ", sheet.len() as u64);
    if sheet.len() <= 64 {
        return put_text(put_bytes(o, sheet), sheet);
    }
    let mut text = [0u8; 67614];
    let n = write_text(sheet, &mut text).unwrap_or(0);
    o.line(b"text ", n as u64)
}

fn put_fault(o: Screen, RejectedLine { line, fault }: RejectedLine) -> Screen {
    let mut text = [0u8; 89];
    let n = rejection_text(line, fault, &mut text);
    o.put(&text[..n])
}

/// Prints what `scribe sheet` answers of a text.
pub fn put_answer(o: Screen, text: &[u8]) -> Screen {
    let mut sheet = [0u8; 33816];
    match read_sheet(text, &mut sheet) {
        Ok(n) => put_sheet(o, start_of(&sheet, n)),
        Err(TextRejection::Refused(rejection)) => o.line(
            b"refused ",
            u64::from(rejection.number()),
        ),
        Err(TextRejection::RejectedLine(faulty)) => put_fault(o, faulty),
    }
}
