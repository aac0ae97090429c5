// The pairs of values that could be banned, in the order of their bits. The pairs of three agents
// with two values each are numbered 0 to 11; fewer agents or smaller domains have some of these, in
// the same order.
ghost use Rattle.std.specs.Prelude.{◌≡◌, ◌++◌, ◌+◌, ◌≤◌, ◌<◌, length};
ghost use Rattle.model_little.specs.Little.{chosen};
ghost use Rattle.sheet_writer.specs.Rows.{row_of};
ghost use Rattle.sheet_little.specs.Rows.{place_at, slots_of, owned_by, rows_from, ban_of};

use crate::choice::Counts;
use sheet_writer::{Row, Rows};

// Pair k: four for each two agents.
#[tactic(auto, unfolding(crate::specs::Rows::place_at))]
fn row_at(k: u8) -> Row
    requires { k < 12 }
    ensures { row_of result ≡ place_at k }
{
    Row {
        lower: 1 + k / 8,
        higher: if k < 4 { 2 } else { 3 },
        low: 1 + k / 2 % 2,
        high: 1 + k % 2,
    }
}

// The domain size of agent i, 1 to 3.
#[tactic(auto, unfolding(crate::specs::Rows::slots_of))]
fn slots(c: Counts, i: u8) -> u8
    ensures { result ≡ slots_of c i }
{
    match i {
        1 => c.first,
        2 => c.second,
        _ => c.third,
    }
}

// Both values of pair k are owned.
#[tactic(auto, unfolding(crate::specs::Rows::owned_by))]
fn owned(c: Counts, k: u8) -> bool
    requires { k < 12 }
    ensures { result ≡ owned_by c k }
{
    let row = row_at(k);
    row.low <= slots(c, row.lower) && row.high <= slots(c, row.higher)
}

// Appends this pair, if the lowest bit of `left` is 1.
fn put_ban(rows: &mut Rows<12>, left: u64, row: Row)
    requires { length rows.old < 12 }
    ensures { (rows.new ≡ rows.old ++ ban_of left (row_of row)) × (length rows.new ≤ length rows.old + 1) }
{
    if left % 2 == 1 {
        rows.push(row);
    }
}

/// Returns the records of a set of bans: the owned pairs whose bits in `bans` are 1, in their
/// order. Equals `chosen` (model_little/specs/Little.antt) of `rows_from c 0` (specs/Rows.antt).
pub fn bans_of(c: Counts, bans: u64) -> Rows<12>
    ensures { result ≡ chosen bans (rows_from c 0) }
{
    let mut rows = Rows::new();
    let mut left = bans;
    for k in 0..12 {
        if owned(c, k) {
            put_ban(&mut rows, left, row_at(k));
            left /= 2;
        }
    }
    rows
}
