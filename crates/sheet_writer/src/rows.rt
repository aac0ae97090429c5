// The records of a sheet before they are written.
ghost use Rattle.std.specs.Prelude.{◌≡◌, ◌≤◌, ◌<◌, ◌↔◌, [], ◌∷◌, ◌++◌, length, IsTrue};
ghost use Rattle.sheet_writer.specs.Rows.{row_of, rows_of};

use sheet_records::Row;
use std::marker::Model;

/// Records one behind the other, at most `N`; `N` is at most 4,224, the most that a sheet has. A
/// clause sees them as a list.
#[derive(Clone, Copy)]
pub struct Rows<const N: usize> {
    rows: [Row; N],
    count: usize,
}

// Clauses see the records that are listed, in their order. Behind them all is zero, so they say the
// fields too.
impl<const N: usize> Model for Rows<N> {
    ghost use Rattle.std.specs.Prelude.{◌≡◌, ◌≤◌, ◌-◌, List, length, take, drop, replicate};
    ghost use Rattle.model_sheet.specs.Row.{Row as Record};
    ghost use Rattle.sheet_writer.specs.Rows.{rows_of, no_row, padded};
    ghost use Rattle.sheet_writer.specs.Listed.{length-listed, padded-listed};

    ghost Value = { List Record };

    ghost view = { λ r. rows_of (take r.count r.rows) };

    ghost invariant = { λ r. (r.count ≤ N) × (N ≤ 4224) × (length r.rows ≡ N) × (drop r.count r.rows ≡ replicate (N - r.count) no_row) };

    ghost inverse = { λ records. record { rows = padded N records; count = length records } };

    ghost inverse_ok = { λ r h i. record {
      rows = padded-listed N r.count r.rows h.0 h.2 h.3 i;
      count = length-listed N r.count r.rows h.0 h.2 i;
    } };
}

impl<const N: usize> Rows<N> {
    /// Returns an empty list. `N` is at most 4,224.
    pub fn new() -> Rows<N>
        requires { N ≤ 4224 }
        ensures { result ≡ [] }
    {
        let none = Row {
            lower: 0,
            higher: 0,
            low: 0,
            high: 0,
        };
        Rows {
            rows: [none; N],
            count: 0,
        }
    }

    /// Returns whether the list has `N` records.
    pub fn is_full(&self) -> bool
        ensures full { IsTrue result ↔ (length self.now ≡ N) }
        ensures room { length self.now ≤ N }
    {
        self.as_slice().len() == N
    }

    /// Appends a record. The list must not be full.
    pub fn push(&mut self, row: Row)
        requires { length self.old < N }
        ensures { self.new ≡ self.old ++ row_of row ∷ [] }
    {
        self.rows[self.count] = row;
        self.count += 1;
    }

    /// Returns the records in their order.
    pub fn as_slice(&self) -> &[Row]
        ensures records { rows_of result.now ≡ self.now }
        ensures room { length result.now ≤ N }
    {
        &self.rows[..self.count]
    }
}
