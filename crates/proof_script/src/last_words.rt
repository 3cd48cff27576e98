//! The last words of a line, which several steps share.

ghost use Rattle.std.specs.Prelude.{◌∷◌, [], ℕ, List, Bool, IfOk, MatchOption};
ghost use Rattle.term_core.specs.Tree.{Tree};
ghost use Rattle.spec_core.specs.Sig.{Sig};
ghost use Rattle.spec_core.specs.Declarations.{IsDeclared};
ghost use Rattle.clause_core.specs.declared.steps.Place.{Place as AnyPlace};
ghost use Rattle.proof_script.specs.LineWords.{AreWords};
ghost use Rattle.proof_script.specs.Words.{number as number_word, place as place_word};
ghost use Rattle.proof_script.specs.Words.{side as side_word, terms as term_list};

use crate::line_words::{next_number, next_side};
use crate::place_words::next_place;
use crate::term_words::next_terms;
use clause_core::Place;
use spec_core::Signature;
use std::alloc::Global;
use term_core::{OutOfMemory, Seq, Term};

/// The place and the number of a rule that are the only words.
pub fn place_and_rule(alloc: Global, words: &[u8]) -> Result<Option<(Place, u32)>, OutOfMemory>
    ensures { IfOk result (λ o. MatchOption o
        ((sig : Sig) → IsDeclared sig → (p : AnyPlace) (r : ℕ)
        → AreWords sig words.now (place_word p ∷ number_word r ∷ []) → ⊥)
        (λ p. (sig : Sig) → AreWords sig words.now (place_word p.0 ∷ number_word p.1 ∷ []))) }
{
    let Some((place, others)) = next_place(alloc, words)? else {
        return Ok(None);
    };
    let Some((rule, rest)) = next_number(others) else {
        return Ok(None);
    };
    if rest.is_empty() {
        Ok(Some((place, rule)))
    } else {
        Ok(None)
    }
}

/// Whether the only word is the left side (true) or the right one.
pub fn only_side(words: &[u8]) -> Option<bool>
    ensures { MatchOption result
        ((sig : Sig) → IsDeclared sig → (left : Bool)
        → AreWords sig words.now (side_word left ∷ []) → ⊥)
        (λ left. (sig : Sig) → AreWords sig words.now (side_word left ∷ [])) }
{
    let (left, rest) = next_side(words)?;
    if rest.is_empty() { Some(left) } else { None }
}

/// The list of terms that is the only word.
pub fn only_terms(
    alloc: Global,
    sig: &Signature,
    words: &[u8],
) -> Result<Option<Seq<Term>>, OutOfMemory>
    requires { IsDeclared sig.now }
    ensures { IfOk result (λ o. MatchOption o
        ((ts : List Tree) → AreWords sig.now words.now (term_list ts ∷ []) → ⊥)
        (λ ts. AreWords sig.now words.now (term_list ts ∷ []))) }
{
    let Some((terms, rest)) = next_terms(alloc, sig, words)? else {
        return Ok(None);
    };
    if rest.is_empty() {
        Ok(Some(terms))
    } else {
        Ok(None)
    }
}

/// The terms of an instance, with the place and the side at which it is used, if these are the only
/// words.
pub fn instance_at(
    alloc: Global,
    sig: &Signature,
    words: &[u8],
) -> Result<Option<(Seq<Term>, Place, bool)>, OutOfMemory>
    requires { IsDeclared sig.now }
    ensures { IfOk result (λ o. MatchOption o
        ((ts : List Tree) (p : AnyPlace) (left : Bool) → AreWords sig.now words.now
        (term_list ts ∷ place_word p ∷ side_word left ∷ []) → ⊥)
        (λ i. AreWords sig.now words.now
        (term_list i.0 ∷ place_word i.1 ∷ side_word i.2 ∷ []))) }
{
    let Some((terms, behind)) = next_terms(alloc, sig, words)? else {
        return Ok(None);
    };
    let Some((place, rest)) = next_place(alloc, behind)? else {
        return Ok(None);
    };
    match only_side(rest) {
        Some(left) => Ok(Some((terms, place, left))),
        None => Ok(None),
    }
}
