//! A stream of sheets, each behind its length in two bytes: read piece by piece, or as a whole.
//! docs/FORMATS.md, 'A stream of sheets'.
ghost use Rattle.std.specs.Prelude.{◌≡◌, ◌<◌, ℕ, false, List, ltb, length};
ghost use Rattle.model_season.specs.Season.{no_figures, figures_of as figures_of'};
ghost use Rattle.model_season.specs.Claims.{Reordered, stream_of, AllFit};
ghost use Rattle.model_season.specs.Stream.{most_sheets, is_whole, split, season_from, season as season_by};
ghost use Rattle.model_base.specs.Lists.{All};
ghost use Rattle.season_figures.specs.Abstract.{figures_of};
ghost use Rattle.season_figures.specs.Pieces.{said, is_piece, cut_of, is_over, reading_of, season_of, Steps, Advances};
ghost use Rattle.season_figures.specs.Promised.{OutcomeTells, CountsTell};

use crate::figures::Figures;

/// The most sheets that a season has; what stands behind them is not looked at.
pub const MOST_SHEETS: usize = 1000000;

/// How far reading has come.
#[derive(Clone, Copy, Debug, PartialEq, Eq)]
pub enum Reading {
    /// All pieces so far were whole, and another may follow.
    Going,
    /// The stream has ended behind a whole sheet, or at its beginning.
    Ended,
    /// The stream has broken off within a length or a sheet.
    Cut,
}

/// A season, as far as it is read.
#[derive(Clone, Copy)]
pub struct Season {
    /// The figures of the whole sheets so far.
    pub figures: Figures,
    /// Whether more may follow, and how the stream ended where not.
    pub reading: Reading,
}

/// Returns the length that the first two bytes say, low byte first; `None` where there are fewer
/// than two. Equals `said` of specs/Pieces.antt.
#[tactic(auto, using(crate::proofs::Pieces::said_nothing, crate::proofs::Pieces::said_length, crate::proofs::Pieces::two_bytes_say))]
pub fn length_in(head: &[u8]) -> Option<u16>
    ensures { result ≡ said head.now }
{
    match head {
        [low, high, ..] => Some(u16::from_le_bytes([*low, *high])),
        _ => None,
    }
}

// Whether `head` is a length, and `sheet` has as many bytes as it says.
fn is_piece(head: &[u8], sheet: &[u8]) -> bool
    ensures { result ≡ is_piece head.now sheet.now }
{
    length_in(head).is_some_and(|n| n as usize <= sheet.len())
}

impl Season {
    /// Returns the season of which nothing is read yet.
    pub fn begin() -> Season
        ensures { (figures_of result.figures ≡ no_figures) × (result.reading ≡ Reading.Going) }
    {
        Season {
            figures: Figures::none(),
            reading: Reading::Going,
        }
    }

    /// Whether the stream has ended or broken off.
    pub fn is_over(self) -> bool
        ensures { result ≡ is_over self.reading }
    {
        self.reading != Reading::Going
    }

    /// Whether the stream has broken off within a length or a sheet.
    pub fn is_cut(self) -> bool
        ensures { result ≡ cut_of self.reading }
    {
        self.reading == Reading::Cut
    }

    /// Returns the season with the next piece: `head` is what was read for its length, at most two
    /// bytes, and `sheet` what was read of the sheet behind it, at most as many bytes as the length
    /// says. A whole sheet is counted. Otherwise the figures stay and reading is over: `Ended`
    /// where `head` is empty, else `Cut`. `Steps` of specs/Pieces.antt says so.
    pub fn with_piece(self, head: &[u8], sheet: &[u8]) -> Season
        ensures { Steps self head.now sheet.now result }
    {
        if is_piece(head, sheet) {
            Season {
                figures: self.figures.with_sheet(sheet),
                ..self
            }
        } else {
            let reading = if head.is_empty() {
                Reading::Ended
            } else {
                Reading::Cut
            };
            Season { reading, ..self }
        }
    }

    // With the next piece of the stream, and what is left behind it.
    #[tactic(auto, using(crate::proofs::Pieces::advances))]
    fn with_next(self, stream: &[u8]) -> (Season, &[u8])
        ensures { Advances stream.now self result.0 result.1.now }
    {
        let (head, behind) = stream.split_at(stream.len().min(2));
        let n = length_in(head).unwrap_or(0) as usize;
        let (sheet, rest) = behind.split_at(behind.len().min(n));
        (self.with_piece(head, sheet), rest)
    }
}

/// Reads a stream as a whole: at most `MOST_SHEETS` sheets, and nothing behind them; `reading` is
/// left `Going` where there are as many. The same whole sheets in another order give the same
/// figures. Equals `season` of model_season/specs/Stream.antt.
#[tactic(auto, using(crate::proofs::Reading::here_begins, crate::proofs::Reading::here_next))]
pub fn read_stream(stream: &[u8]) -> Season
    ensures season { season_of result ≡ season_by stream.now }
    ensures reading { result.reading ≡ reading_of (split most_sheets stream.now) }
    ensures promised { All OutcomeTells (split most_sheets stream.now).sheets }
    ensures tells { CountsTell (split most_sheets stream.now).sheets result.figures }
    ensures ordered { (other : List ℕ) → Reordered (split most_sheets stream.now).sheets (split most_sheets other).sheets
        → figures_of result.figures ≡ figures_of' (split most_sheets other).sheets }
    ensures whole { (sheets : List (List ℕ)) (rest : List ℕ) → AllFit sheets → length sheets < most_sheets → is_whole rest ≡ false
        → stream.now ≡ stream_of sheets rest → season_of result ≡ season_from (record { sheets = sheets; cut = ltb 0 (length rest) }) }
{
    let mut season = Season::begin();
    let mut rest = stream;
    for _ in 0..MOST_SHEETS {
        if season.is_over() {
            break;
        }
        (season, rest) = season.with_next(rest);
    }
    season
}
