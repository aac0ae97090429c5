// The words of a line.
ghost use Rattle.std.specs.Prelude.{◌≡◌, ◌∷◌, [], ◌<◌, ltb, length, MatchOption};
ghost use Rattle.model_text.specs.Words.{without_return, without_comment};
ghost use Rattle.sheet_text_statements.specs.Parts.{words_in};

use crate::bytes::{find, word_length, word_start};

// A line without a carriage return at its end.
fn without_return(line: &[u8]) -> &[u8]
    ensures { result.now ≡ without_return line.now }
{
    match line {
        [front @ .., b'\r'] => front,
        _ => line,
    }
}

/// Returns a line without one carriage return at its end, then without everything from the first
/// `#` on. Equals `without_comment` of `without_return` of model_text/specs/Words.antt.
pub fn without_comment(line: &[u8]) -> &[u8]
    ensures { result.now ≡ without_comment (without_return line.now) }
{
    let line = without_return(line);
    match find(line, b'#') {
        Some(end) => &line[..end],
        None => line,
    }
}

/// Returns the first word and what stands behind it, which is shorter than `s`; `None` where there
/// is no word. Blanks and tabs separate words.
pub fn next_word(s: &[u8]) -> Option<(&[u8], &[u8])>
    ensures { MatchOption result (words_in s.now ≡ [])
        (λ r. (words_in s.now ≡ r.0.now ∷ words_in r.1.now) × (length r.1.now < length s.now)) }
{
    let start = word_start(s)?;
    let word = &s[start..];
    Some(word.split_at(word_length(word)))
}

/// Returns whether there is a word `k` in `s`, counted from 0.
pub fn has_word(s: &[u8], k: usize) -> bool
    ensures { result ≡ ltb k (length (words_in s.now)) }
{
    let mut rest = s;
    for _ in 0..k {
        match next_word(rest) {
            Some((_, behind)) => rest = behind,
            None => return false,
        }
    }
    next_word(rest).is_some()
}
