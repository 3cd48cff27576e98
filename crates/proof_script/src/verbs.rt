//! The sixteen words that step lines begin with.

ghost use Rattle.std.specs.Prelude.{◌≡◌, MatchOption};
ghost use Rattle.clause_core.specs.declared.steps.Step.{Step as AnyStep};
ghost use Rattle.proof_script.specs.Steps.{step_line};
ghost use Rattle.proof_script.specs.Verbs.{verb_text};

/// What the line of a step begins with.
#[derive(Clone, Copy)]
pub enum Verb {
    Trivial,
    Match,
    Absurd,
    Subsume,
    ByLemma,
    Rule,
    Case,
    Decompose,
    Clash,
    Drop,
    Solve,
    Cover,
    Generalize,
    Context,
    Hyp,
    Lemma,
}

/// The verb that the word is.
pub fn read_verb(word: &[u8]) -> Option<Verb>
    ensures { MatchOption result ((step : AnyStep) → (step_line step).head ≡ word.now → ⊥)
        (λ verb. verb_text verb ≡ word.now) }
{
    if word == b"trivial".as_slice() {
        Some(Verb::Trivial)
    } else if word == b"match".as_slice() {
        Some(Verb::Match)
    } else if word == b"absurd".as_slice() {
        Some(Verb::Absurd)
    } else if word == b"subsume".as_slice() {
        Some(Verb::Subsume)
    } else if word == b"by-lemma".as_slice() {
        Some(Verb::ByLemma)
    } else if word == b"rule".as_slice() {
        Some(Verb::Rule)
    } else if word == b"case".as_slice() {
        Some(Verb::Case)
    } else if word == b"decompose".as_slice() {
        Some(Verb::Decompose)
    } else if word == b"clash".as_slice() {
        Some(Verb::Clash)
    } else if word == b"drop".as_slice() {
        Some(Verb::Drop)
    } else if word == b"solve".as_slice() {
        Some(Verb::Solve)
    } else if word == b"cover".as_slice() {
        Some(Verb::Cover)
    } else if word == b"generalize".as_slice() {
        Some(Verb::Generalize)
    } else if word == b"context".as_slice() {
        Some(Verb::Context)
    } else if word == b"hyp".as_slice() {
        Some(Verb::Hyp)
    } else if word == b"lemma".as_slice() {
        Some(Verb::Lemma)
    } else {
        None
    }
}
