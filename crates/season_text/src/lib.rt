//! What `season` prints of a season: eight lines, made in a lent buffer. docs/PROGRAMS.md, 'A
//! season's figures'. Stands on `season_figures` (the figures) and `support_buffer` (the cursor).
//! Start reading at `text`; specs/Text.antt defines each line, and specs/Cases.antt has worked
//! seasons.
#![tactic(auto)]

ghost use Rattle.std.specs.Prelude.{◌≡◌, ◌+◌, ◌≤◌, length, drop, Some};
ghost use Rattle.io.specs.Counts.{IsPrefixLen};
ghost use Rattle.support_buffer.specs.Puts.{Room, Adds};
ghost use Rattle.model_season.specs.Stream.{season as season_by};
ghost use Rattle.season_figures.specs.Abstract.{kinds, rounds_of, rounds_from};
ghost use Rattle.season_figures.specs.Pieces.{season_of};
ghost use Rattle.season_text.specs.Text.{figure, four_line, mean_line, rounds_lines, Prints};

use season_figures::figures::Rounds;
use season_figures::stream::{Season, read_stream};
use support_buffer::cursor::Cursor;
use support_buffer::{append_line, append_number};

// What stands before a number, and the number.
#[tactic(auto, using(support_buffer::proofs::Puts::adds_then), unfolding(crate::specs::Text::figure))]
fn append_figure(out: &mut Cursor<'_>, before: &[u8], n: u64)
    requires { Room out.old (length before.now + 20) }
    ensures text { Adds out.old (figure before.now n) out.new }
    ensures short { length (figure before.now n) ≤ length before.now + 20 }
{
    out.put_all(before);
    append_number(out, n);
}

// A line of four numbers.
fn append_four(out: &mut Cursor<'_>, before: &[u8], four: [u64; 4])
    requires { Room out.old (length before.now + 84) }
    ensures text { Adds out.old (four_line before.now (kinds four)) out.new }
    ensures short { length (four_line before.now (kinds four)) ≤ length before.now + 84 }
{
    let [first, second, third, fourth] = four;
    append_figure(out, before, first);
    append_figure(out, b" ", second);
    append_figure(out, b" ", third);
    append_line(out, b" ", fourth);
}

// The mean is not reduced.
#[tactic(auto, using(support_buffer::proofs::Puts::adds_then), unfolding(season_figures::specs::Abstract::rounds_from, crate::specs::Text::mean, crate::specs::Text::over, crate::specs::Text::mean_line))]
fn append_mean(out: &mut Cursor<'_>, r: Rounds)
    requires { Room out.old 47 }
    ensures { Adds out.old (mean_line (rounds_from r)) out.new }
{
    append_figure(out, b"mean ", r.sum);
    append_line(out, b"/", r.count);
}

// The rounds of some sheets.
fn append_some(out: &mut Cursor<'_>, r: Rounds)
    requires { Room out.old 126 }
    ensures { Adds out.old (rounds_lines (Some (rounds_from r))) out.new }
{
    append_line(out, b"fewest ", r.fewest);
    append_line(out, b"most ", r.most);
    append_line(out, b"sum ", r.sum);
    append_mean(out, r);
}

// With none to count each line shows a dash.
#[tactic(auto, unfolding(season_figures::specs::Abstract::rounds_of, crate::specs::Text::fewest, crate::specs::Text::most, crate::specs::Text::sum, crate::specs::Text::mean, crate::specs::Text::dash, model_base::specs::Decimal::newline, crate::specs::Text::dash_line, crate::specs::Text::rounds_lines))]
fn append_rounds(out: &mut Cursor<'_>, rounds: Option<Rounds>)
    requires { Room out.old 126 }
    ensures { Adds out.old (rounds_lines (rounds_of rounds)) out.new }
{
    match rounds {
        None => out.put_all(b"fewest -\nmost -\nsum -\nmean -\n"),
        Some(r) => append_some(out, r),
    }
}

/// Writes the text of a season at the buffer's beginning, and returns how many bytes it has, 512 at
/// most. Bytes past it stay. Equals `season_text` of specs/Text.antt.
pub fn text(s: Season, out: &mut [u8; 512]) -> usize
    ensures prints { Prints (season_of s) out.new result }
    ensures behind { drop result out.new ≡ drop result out.old }
    ensures prefix_len { IsPrefixLen result out.new }
{
    let f = s.figures;
    let mut next = Cursor { buffer: out, at: 0 };
    append_line(&mut next, b"sheets ", f.sheets);
    append_four(&mut next, b"refused ", f.refused);
    append_four(&mut next, b"words ", f.words);
    append_line(&mut next, b"cut ", u64::from(s.is_cut()));
    append_rounds(&mut next, f.rounds);
    next.at
}

/// Reads a stream as a whole, and writes the text of its season as `text` does.
pub fn stream_text(stream: &[u8], out: &mut [u8; 512]) -> usize
    ensures prints { Prints (season_by stream.now) out.new result }
    ensures behind { drop result out.new ≡ drop result out.old }
    ensures prefix_len { IsPrefixLen result out.new }
{
    text(read_stream(stream), out)
}
