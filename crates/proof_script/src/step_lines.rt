//! `read_step`: the step of a line.

ghost use Rattle.std.specs.Prelude.{◌≡◌, Err, IfOk};
ghost use Rattle.spec_core.specs.Declarations.{IsDeclared};
ghost use Rattle.clause_core.specs.declared.steps.Step.{Step as AnyStep};
ghost use Rattle.proof_script.specs.LineWords.{IsStepLine, ReadsStep};
ghost use Rattle.proof_script.specs.Verbs.{verb_text};
ghost use Rattle.proof_script.specs.declared.errors.StepLineError.TheVariants.{NotAStep};

use crate::equation_steps::{absurd, clash, decompose, leave_out, match_premise, solve, trivial};
use crate::errors::StepLineError;
use crate::place_steps::{case, context, hyp, lemma, rule};
use crate::term_steps::{by_lemma, cover, generalize, subsume};
use crate::terms::split_word;
use crate::verbs::{Verb, read_verb};
use clause_core::Step;
use spec_core::Signature;
use std::alloc::Global;
use term_core::OutOfMemory;

/// The step that the line says, if it may appear in a report. The line comes without its newline.
pub fn read_step(alloc: Global, sig: &Signature, line: &[u8]) -> Result<Step, StepLineError>
    requires { IsDeclared sig.now }
    ensures ok { IfOk result (IsStepLine sig.now line.now) }
    ensures no_step { result ≡ Err NotAStep →
        (step : AnyStep) → IsStepLine sig.now line.now step → ⊥ }
{
    let (head, words) = split_word(line);
    let Some(verb) = read_verb(head) else {
        return Err(StepLineError::NotAStep);
    };
    match read_words(alloc, sig, verb, words)? {
        Some(step) => Ok(step),
        None => Err(StepLineError::NotAStep),
    }
}

/// The step of this verb and these words.
fn read_words(
    alloc: Global,
    sig: &Signature,
    verb: Verb,
    words: &[u8],
) -> Result<Option<Step>, OutOfMemory>
    requires { IsDeclared sig.now }
    ensures { IfOk result (ReadsStep sig.now (verb_text verb) words.now) }
{
    match verb {
        Verb::Trivial => Ok(trivial(words)),
        Verb::Match => Ok(match_premise(words)),
        Verb::Absurd => Ok(absurd(words)),
        Verb::Subsume => subsume(alloc, sig, words),
        Verb::ByLemma => by_lemma(alloc, sig, words),
        Verb::Rule => rule(alloc, words),
        Verb::Case => case(alloc, words),
        Verb::Decompose => Ok(decompose(words)),
        Verb::Clash => Ok(clash(words)),
        Verb::Drop => Ok(leave_out(words)),
        Verb::Solve => Ok(solve(words)),
        Verb::Cover => cover(alloc, sig, words),
        Verb::Generalize => generalize(alloc, sig, words),
        Verb::Context => context(alloc, words),
        Verb::Hyp => hyp(alloc, sig, words),
        Verb::Lemma => lemma(alloc, sig, words),
    }
}
