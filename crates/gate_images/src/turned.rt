//! The same messages in another layout: those of two channels that hold one each change places, and
//! the heads of these channels too.
ghost use Rattle.std.specs.Prelude.{◌<◌, length, IfSome};

use crate::layout::Image;
use crate::lines::{Line, lines_of};
use abt_record::Network;

// The first channel that holds one message.
fn single(lines: &[Line]) -> Option<usize>
    ensures { IfSome result (λ c. c < length lines.now) }
{
    lines.iter().position(|l| l.count == 1)
}

fn swap<T>(records: &mut [T], a: usize, b: usize) {
    if a < records.len() && b < records.len() {
        records.swap(a, b);
    }
}

/// Makes the first two channels of one message change places; returns whether there are two.
pub fn turn(image: &mut Image, r: &Network) -> bool {
    let lines = lines_of(r);
    let Some(a) = single(&lines) else {
        return false;
    };
    let Some(ahead) = single(&lines[a + 1..]) else {
        return false;
    };
    let b = a + 1 + ahead;
    swap(&mut image.heads, a, b);
    swap(
        &mut image.messages,
        usize::from(lines[a].first).saturating_sub(1),
        usize::from(lines[b].first).saturating_sub(1),
    );
    true
}
