// The words of the command line.
ghost use Rattle.std.specs.Prelude.{◌≡◌, ◌≤◌, [], ◌∷◌, All, IfOk, MatchOption, map, vec_items, vec_len};

use std::alloc::{AllocError, Global};
use std::env::FillError;
use std::rt::Env;

// The system passes no word of more bytes.
const LONGEST_WORD: usize = 131072;

// Whether there is a word i, even an empty one.
fn is_given(rt: &impl Env, i: usize) -> bool {
    let mut first = [0u8; 1];
    !matches!(rt.arg(i, &mut first), Err(FillError::NotPresent))
}

// Returns a copy of word i, by way of `space`. A word that is absent, or longer than the system
// passes, is copied as the empty word.
fn copied(rt: &impl Env, i: usize, space: &mut [u8], alloc: Global) -> Result<Vec<u8>, AllocError>
    ensures { IfOk result (λ word. vec_len word ≤ 131072) }
{
    let count = rt.arg(i, space).unwrap_or(0).min(LONGEST_WORD);
    space[..count].to_vec(alloc)
}

// The words from word 1 on, each copied by way of `space`.
fn words_by(rt: &impl Env, space: &mut [u8], alloc: Global) -> Result<Vec<Vec<u8>>, AllocError>
    ensures { IfOk result (λ words. All (λ word. vec_len word ≤ 131072) words.items) }
{
    let mut words = Vec::new(alloc);
    for i in 1..usize::MAX {
        if !is_given(rt, i) {
            break;
        }
        words.push(copied(rt, i, space, alloc)?)?;
    }
    Ok(words)
}

/// Returns the words of the command line without the program's name, as they were given: any bytes,
/// at most 131,072 a word.
///
/// # Errors
/// Where memory runs out.
pub fn words_of(rt: &impl Env, alloc: Global) -> Result<Vec<Vec<u8>>, AllocError>
    ensures { IfOk result (λ words. All (λ word. vec_len word ≤ 131072) words.items) }
{
    if !is_given(rt, 1) {
        return Ok(Vec::new(alloc));
    }
    // one for all words, since to clear one for each takes longer than to copy a short word; and on
    // the heap, so that no program needs more of the stack for its words
    let mut space = vec![in alloc; 0u8; LONGEST_WORD]?;
    words_by(rt, &mut space, alloc)
}

/// Returns the first word and those behind it, or `None` where there is none.
pub fn first_word(words: &[Vec<u8>]) -> Option<(&[u8], &[Vec<u8>])>
    ensures { MatchOption result (map vec_items words.now ≡ []) (λ p. map vec_items words.now ≡ p.0.now ∷ map vec_items p.1.now) }
{
    let (word, others) = words.split_first()?;
    Some((word.as_slice(), others))
}
