//! The place that comes next.

ghost use Rattle.std.specs.Prelude.{◌≡◌, ◌++◌, Bool, ℕ, List, IfOk, MatchOption, codes};
ghost use Rattle.spec_core.specs.Sig.{Sig};
ghost use Rattle.clause_core.specs.declared.steps.Place.{Place as AnyPlace};
ghost use Rattle.proof_script.specs.LineWords.{IsWordAt};
ghost use Rattle.proof_script.specs.PathText.{IsPlace, StandsBeforeDot};
ghost use Rattle.proof_script.specs.Words.{place as place_word, side_text};

use crate::line_words::next_word;
use crate::paths::read_path;
use crate::places::read_equation;
use crate::terms::after;
use clause_core::Place;
use std::alloc::Global;
use term_core::OutOfMemory;

/// The place that is the next word, and what follows it.
pub fn next_place(alloc: Global, bytes: &[u8]) -> Result<Option<(Place, &[u8])>, OutOfMemory>
    ensures { IfOk result (λ o. MatchOption o
        ((sig : Sig) (p : AnyPlace) (rest : List ℕ)
        → IsWordAt sig bytes.now (place_word p) rest → ⊥)
        (λ p. (sig : Sig) → IsWordAt sig bytes.now (place_word p.0) p.1.now)) }
{
    let Some((word, rest)) = next_word(bytes) else {
        return Ok(None);
    };
    let Some(place) = read_place(alloc, word)? else {
        return Ok(None);
    };
    Ok(Some((place, rest)))
}

/// The place that the word is.
fn read_place(alloc: Global, word: &[u8]) -> Result<Option<Place>, OutOfMemory>
    ensures { IfOk result (λ o. MatchOption o
        ((p : AnyPlace) → IsPlace word.now p → ⊥) (λ p. IsPlace word.now p)) }
{
    let (head, behind) = split_dot(word);
    let Some((conclusion, number)) = read_equation(head) else {
        return Ok(None);
    };
    let Some((left, text)) = after_side(behind) else {
        return Ok(None);
    };
    let Some(path) = read_path(alloc, text)? else {
        return Ok(None);
    };
    Ok(Some(Place {
        conclusion,
        number,
        left,
        path,
    }))
}

/// The bytes before the first dot, and the others.
fn split_dot(bytes: &[u8]) -> (&[u8], &[u8])
    ensures { StandsBeforeDot bytes.now result.0.now result.1.now }
{
    for (end, byte) in bytes.iter().enumerate() {
        if *byte == b'.' {
            return bytes.split_at(end);
        }
    }
    (bytes, &[])
}

/// The side after the dot at the front, left if true, and what follows it.
fn after_side(bytes: &[u8]) -> Option<(bool, &[u8])>
    ensures { MatchOption result
        ((left : Bool) (rest : List ℕ)
        → bytes.now ≡ codes "." ++ (side_text left ++ rest) → ⊥)
        (λ p. bytes.now ≡ codes "." ++ (side_text p.0 ++ p.1.now)) }
{
    match after(bytes, b".l") {
        Some(rest) => Some((true, rest)),
        None => Some((false, after(bytes, b".r")?)),
    }
}
