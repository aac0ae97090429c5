// One line for a record, appended to what stands in a lent buffer.
ghost use Rattle.std.specs.Prelude.{◌≡◌, ◌+◌, ◌≤◌, length};
ghost use Rattle.model_sheet.specs.Row.{signed};
ghost use Rattle.support_buffer.specs.Puts.{Adds};
ghost use Rattle.sheet_records.specs.Rows.{row_of};
ghost use Rattle.model_text.specs.Telling.{figure, place, signed_figure, ban_line, gap_line, row_line};
ghost use Rattle.sheet_text_writer.specs.Parts.{RoomFor};

use sheet_records::Row;
use support_buffer::append_number;
use support_buffer::cursor::Cursor;

/// Appends a blank and a number. Room as `RoomFor` of specs/Parts.antt asks: twenty bytes more than
/// the text has. Equals `figure` of model_text/specs/Telling.antt.
pub fn append_figure(out: &mut Cursor<'_>, k: u8)
    requires { RoomFor out.old (figure k) }
    ensures { Adds out.old (figure k) out.new }
{
    out.put_all(b" ");
    append_number(out, u64::from(k));
}

// Appends a blank, an agent, a colon and a value of the agent.
fn append_place(out: &mut Cursor<'_>, i: u8, v: u8)
    requires { RoomFor out.old (place i v) }
    ensures { Adds out.old (place i v) out.new }
{
    append_figure(out, i);
    out.put_all(b":");
    append_number(out, u64::from(v));
}

// Appends a blank and this byte as a signed number.
fn append_signed(out: &mut Cursor<'_>, b: u8)
    requires { RoomFor out.old (signed_figure (signed b)) }
    ensures { Adds out.old (signed_figure (signed b)) out.new }
{
    if b < 128 {
        append_figure(out, b);
    } else {
        out.put_all(b" -");
        append_number(out, 256 - u64::from(b));
    }
}

// Appends the line of a record of edition 1.
fn append_ban(out: &mut Cursor<'_>, row: Row)
    requires { RoomFor out.old (ban_line (row_of row)) }
    ensures { Adds out.old (ban_line (row_of row)) out.new }
{
    out.put_all(b"ban");
    append_place(out, row.lower, row.low);
    append_place(out, row.higher, row.high);
    out.put_all(b"\n");
}

// Appends the line of a record of edition 2.
fn append_gap(out: &mut Cursor<'_>, row: Row)
    requires { RoomFor out.old (gap_line (row_of row)) }
    ensures { Adds out.old (gap_line (row_of row)) out.new }
{
    out.put_all(b"gap");
    append_figure(out, row.lower);
    append_figure(out, row.higher);
    append_signed(out, row.low);
    append_signed(out, row.high);
    out.put_all(b"\n");
}

/// Appends the line of a record. `edition` is the sheet's byte; any number but 2 is taken as
/// edition 1. Room as `RoomFor` of specs/Parts.antt asks. Equals `row_line` of
/// model_text/specs/Telling.antt.
pub fn append_row(out: &mut Cursor<'_>, edition: u8, row: Row)
    requires { RoomFor out.old (row_line edition (row_of row)) }
    ensures { Adds out.old (row_line edition (row_of row)) out.new }
{
    if edition == 2 {
        append_gap(out, row);
    } else {
        append_ban(out, row);
    }
}
