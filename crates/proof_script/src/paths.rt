//! Argument numbers of a place.

ghost use Rattle.std.specs.Prelude.{ℕ, List, IfOk, MatchOption};
ghost use Rattle.proof_script.specs.PathText.{IsArgumentAt, IsPath};

use crate::terms::after;
use std::alloc::Global;
use term_core::{OutOfMemory, Seq};

/// The argument numbers of a path, each of which comes after a dot.
pub fn read_path(alloc: Global, bytes: &[u8]) -> Result<Option<Seq<u8>>, OutOfMemory>
    ensures { IfOk result (λ o. MatchOption o
        ((path : List ℕ) → IsPath bytes.now path → ⊥) (λ path. IsPath bytes.now path)) }
{
    let mut path = Seq::new(alloc);
    let mut rest = bytes;
    while !rest.is_empty() {
        let Some((number, behind)) = next_argument(rest) else {
            return Ok(None);
        };
        path.push(number)?;
        rest = behind;
    }
    Ok(Some(path))
}

/// The argument number after the dot at the front, and what follows it.
fn next_argument(bytes: &[u8]) -> Option<(u8, &[u8])>
    ensures { MatchOption result
        ((number : ℕ) (rest : List ℕ) → IsArgumentAt bytes.now number rest → ⊥)
        (λ p. IsArgumentAt bytes.now p.0 p.1.now) }
{
    let text = after(bytes, b".")?;
    let (first, rest) = text.split_first()?;
    if *first < b'1' || *first > b'9' {
        None
    } else {
        Some((*first - b'0', rest))
    }
}
