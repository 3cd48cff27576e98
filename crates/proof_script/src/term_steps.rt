//! Steps with terms.

ghost use Rattle.std.specs.Prelude.{IfOk, codes};
ghost use Rattle.spec_core.specs.Declarations.{IsDeclared};
ghost use Rattle.proof_script.specs.LineWords.{ReadsStep};

use crate::last_words::only_terms;
use crate::line_words::{next_name, next_number, next_variable};
use crate::term_words::{next_patterns, next_term};
use clause_core::Step;
use spec_core::Signature;
use std::alloc::Global;
use term_core::OutOfMemory;

/// The step `subsume` of these words.
pub fn subsume(alloc: Global, sig: &Signature, words: &[u8]) -> Result<Option<Step>, OutOfMemory>
    requires { IsDeclared sig.now }
    ensures { IfOk result (ReadsStep sig.now (codes "subsume") words.now) }
{
    let Some((node, others)) = next_number(words) else {
        return Ok(None);
    };
    match only_terms(alloc, sig, others)? {
        Some(terms) => Ok(Some(Step::Subsume(node, terms))),
        None => Ok(None),
    }
}

/// The step `by-lemma` of these words.
pub fn by_lemma(alloc: Global, sig: &Signature, words: &[u8]) -> Result<Option<Step>, OutOfMemory>
    requires { IsDeclared sig.now }
    ensures { IfOk result (ReadsStep sig.now (codes "by-lemma") words.now) }
{
    let Some((goal, others)) = next_name(alloc, words)? else {
        return Ok(None);
    };
    match only_terms(alloc, sig, others)? {
        Some(terms) => Ok(Some(Step::ByLemma(goal, terms))),
        None => Ok(None),
    }
}

/// The step `cover` of these words.
pub fn cover(alloc: Global, sig: &Signature, words: &[u8]) -> Result<Option<Step>, OutOfMemory>
    requires { IsDeclared sig.now }
    ensures { IfOk result (ReadsStep sig.now (codes "cover") words.now) }
{
    let Some((var, others)) = next_variable(words) else {
        return Ok(None);
    };
    let Some((patterns, rest)) = next_patterns(alloc, sig, others)? else {
        return Ok(None);
    };
    if rest.is_empty() {
        Ok(Some(Step::Cover(var, patterns)))
    } else {
        Ok(None)
    }
}

/// The step `generalize` of these words.
pub fn generalize(alloc: Global, sig: &Signature, words: &[u8]) -> Result<Option<Step>, OutOfMemory>
    requires { IsDeclared sig.now }
    ensures { IfOk result (ReadsStep sig.now (codes "generalize") words.now) }
{
    let Some((term, rest)) = next_term(alloc, sig, words)? else {
        return Ok(None);
    };
    if rest.is_empty() {
        Ok(Some(Step::Generalize(term)))
    } else {
        Ok(None)
    }
}
