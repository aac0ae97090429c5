// The parts of a sheet: the header, a record, the records.
ghost use Rattle.std.specs.Prelude.{◌≡◌, cond, ◌++◌, suc, ◌+◌, ◌*◌, ◌≤◌, ◌<◌, length, take, drop, ltb};
ghost use Rattle.model_sheet.specs.Writing.{header_bytes, row_bytes, chained};
ghost use Rattle.sheet_writer.specs.Rows.{row_of, rows_of, next_index};

use sheet_reader::Problem;
use sheet_records::Row;
use support_buffer::put;

/// Writes the header, the buffer's first 24 bytes, which it must have; the others stay. At most
/// 4,224 records; the chain begins with record 1 if there is one. Equals `header_bytes` of
/// model_sheet/specs/Writing.antt.
pub fn put_header(out: &mut [u8], edition: u8, p: Problem, records: usize)
    requires { (records ≤ 4224) × (24 ≤ length out.old) }
    ensures { out.new
        ≡ header_bytes edition p.count (cond (ltb 0 records) 1 0) records p.domains ++ drop 24 out.old }
{
    let first = u8::from(0 < records);
    let [low, high] = (records as u16).to_le_bytes();
    put(out, 0, &[p.count, edition, first, 0, low, high, 0, 0]);
    put(out, 8, &p.domains);
    put(out, 20, &[0; 4]);
}

// Writes the row as record r + 1 of so many; the last ends the chain.
fn put_record(out: &mut [u8], r: usize, records: usize, row: Row)
    requires { (r < records) × (records ≤ 4224) × (24 + 8 * records ≤ length out.old) }
    ensures { out.new
        ≡ take (24 + 8 * r) out.old ++ row_bytes (row_of row) (next_index r records) ++ drop (24 + 8 * suc r) out.old }
{
    let next = if r + 1 < records { r + 2 } else { 0 };
    let [first, second] = (next as u16).to_le_bytes();
    let Row {
        lower,
        higher,
        low,
        high,
    } = row;
    put(
        out,
        24 + 8 * r,
        &[lower, higher, low, high, first, second, 0, 0],
    );
}

/// Writes the rows behind the header, chained in their order. At most 4,224 rows, and the buffer
/// must have room. Equals `chained` of model_sheet/specs/Writing.antt.
pub fn put_records(out: &mut [u8], rows: &[Row])
    requires { (length rows.now ≤ 4224) × (24 + 8 * length rows.now ≤ length out.old) }
    ensures { out.new
        ≡ take 24 out.old ++ chained 0 (rows_of rows.now) ++ drop (24 + 8 * length rows.now) out.old }
{
    for (r, row) in rows.iter().enumerate() {
        put_record(out, r, rows.len(), *row);
    }
}
