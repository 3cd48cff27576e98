//! Steps with places.

ghost use Rattle.std.specs.Prelude.{IfOk, codes};
ghost use Rattle.spec_core.specs.Declarations.{IsDeclared};
ghost use Rattle.proof_script.specs.LineWords.{ReadsStep, ReadsStepByAny};

use crate::last_words::{instance_at, only_side, place_and_rule};
use crate::line_words::{next_name, next_number, next_premise};
use crate::place_words::next_place;
use clause_core::Step;
use spec_core::Signature;
use std::alloc::Global;
use term_core::OutOfMemory;

/// The step `rule` of these words.
pub fn rule(alloc: Global, words: &[u8]) -> Result<Option<Step>, OutOfMemory>
    ensures { IfOk result (ReadsStepByAny (codes "rule") words.now) }
{
    match place_and_rule(alloc, words)? {
        Some((place, rule)) => Ok(Some(Step::Rule(place, rule))),
        None => Ok(None),
    }
}

/// The step `case` of these words.
pub fn case(alloc: Global, words: &[u8]) -> Result<Option<Step>, OutOfMemory>
    ensures { IfOk result (ReadsStepByAny (codes "case") words.now) }
{
    match place_and_rule(alloc, words)? {
        Some((place, rule)) => Ok(Some(Step::Case(place, rule))),
        None => Ok(None),
    }
}

/// The step `context` of these words.
pub fn context(alloc: Global, words: &[u8]) -> Result<Option<Step>, OutOfMemory>
    ensures { IfOk result (ReadsStepByAny (codes "context") words.now) }
{
    let Some((place, behind)) = next_place(alloc, words)? else {
        return Ok(None);
    };
    let Some((number, others)) = next_premise(behind) else {
        return Ok(None);
    };
    match only_side(others) {
        Some(left) => Ok(Some(Step::Context(place, number, left))),
        None => Ok(None),
    }
}

/// The step `hyp` of these words.
pub fn hyp(alloc: Global, sig: &Signature, words: &[u8]) -> Result<Option<Step>, OutOfMemory>
    requires { IsDeclared sig.now }
    ensures { IfOk result (ReadsStep sig.now (codes "hyp") words.now) }
{
    let Some((node, instance)) = next_number(words) else {
        return Ok(None);
    };
    match instance_at(alloc, sig, instance)? {
        Some((terms, place, left)) => Ok(Some(Step::Hyp(node, terms, place, left))),
        None => Ok(None),
    }
}

/// The step `lemma` of these words.
pub fn lemma(alloc: Global, sig: &Signature, words: &[u8]) -> Result<Option<Step>, OutOfMemory>
    requires { IsDeclared sig.now }
    ensures { IfOk result (ReadsStep sig.now (codes "lemma") words.now) }
{
    let Some((goal, instance)) = next_name(alloc, words)? else {
        return Ok(None);
    };
    match instance_at(alloc, sig, instance)? {
        Some((terms, place, left)) => Ok(Some(Step::Lemma(goal, terms, place, left))),
        None => Ok(None),
    }
}
