//! The term or the list that comes next.

ghost use Rattle.std.specs.Prelude.{ℕ, List, IfOk, MatchOption};
ghost use Rattle.term_core.specs.Tree.{Tree};
ghost use Rattle.spec_core.specs.Declarations.{IsDeclared};
ghost use Rattle.proof_script.specs.LineWords.{IsWordAt};
ghost use Rattle.proof_script.specs.Words.{patterns as pattern_list, term as one_term};
ghost use Rattle.proof_script.specs.Words.{terms as term_list};

use crate::term_lists::{MAX_DEPTH, read_list};
use crate::terms::{Cursor, after, ends, read_term};
use crate::words::Variables;
use spec_core::Signature;
use std::alloc::Global;
use term_core::{OutOfMemory, Seq, Term};

/// The term that is the next word, and what follows it.
pub fn next_term<'a>(
    alloc: Global,
    sig: &Signature,
    bytes: &'a [u8],
) -> Result<Option<(Term, &'a [u8])>, OutOfMemory>
    requires { IsDeclared sig.now }
    ensures { IfOk result (λ o. MatchOption o
        ((t : Tree) (rest : List ℕ) → IsWordAt sig.now bytes.now (one_term t) rest → ⊥)
        (λ p. IsWordAt sig.now bytes.now (one_term p.0) p.1.now)) }
{
    let Some(text) = after(bytes, b" ") else {
        return Ok(None);
    };
    let at = Cursor {
        bytes: text,
        count: 0,
    };
    let Some((term, behind)) = read_term(alloc, sig, Variables::Numbered, MAX_DEPTH, at)? else {
        return Ok(None);
    };
    Ok(Some((term, behind.bytes)))
}

/// The list of terms that is the next word, and what follows it.
pub fn next_terms<'a>(
    alloc: Global,
    sig: &Signature,
    bytes: &'a [u8],
) -> Result<Option<(Seq<Term>, &'a [u8])>, OutOfMemory>
    requires { IsDeclared sig.now }
    ensures { IfOk result (λ o. MatchOption o
        ((ts : List Tree) (rest : List ℕ) → IsWordAt sig.now bytes.now (term_list ts) rest → ⊥)
        (λ p. IsWordAt sig.now bytes.now (term_list p.0) p.1.now)) }
{
    let Some(text) = after(bytes, b" ") else {
        return Ok(None);
    };
    let Some((terms, rest)) = read_list(alloc, sig, Variables::Numbered, text)? else {
        return Ok(None);
    };
    if !ends(rest) {
        return Ok(None);
    }
    Ok(Some((terms, rest)))
}

/// The list of patterns that is the next word, and what follows it. It has a pattern at least.
pub fn next_patterns<'a>(
    alloc: Global,
    sig: &Signature,
    bytes: &'a [u8],
) -> Result<Option<(Seq<Term>, &'a [u8])>, OutOfMemory>
    requires { IsDeclared sig.now }
    ensures { IfOk result (λ o. MatchOption o
        ((ps : List Tree) (rest : List ℕ) → IsWordAt sig.now bytes.now (pattern_list ps) rest → ⊥)
        (λ p. IsWordAt sig.now bytes.now (pattern_list p.0) p.1.now)) }
{
    let Some(text) = after(bytes, b" ") else {
        return Ok(None);
    };
    let Some((patterns, rest)) = read_list(alloc, sig, Variables::Blank, text)? else {
        return Ok(None);
    };
    if patterns.is_empty() {
        return Ok(None);
    }
    if !ends(rest) {
        return Ok(None);
    }
    Ok(Some((patterns, rest)))
}
