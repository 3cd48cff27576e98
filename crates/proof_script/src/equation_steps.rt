//! Steps that name equations.

ghost use Rattle.std.specs.Prelude.{codes};
ghost use Rattle.proof_script.specs.LineWords.{ReadsStepByAny};

use crate::line_words::next_equation;
use crate::step_words::{only_equation, only_number};
use clause_core::Step;

/// The step `trivial` of these words.
pub fn trivial(words: &[u8]) -> Option<Step>
    ensures { ReadsStepByAny (codes "trivial") words.now result }
{
    Some(Step::Trivial(only_number(words, true)?))
}

/// The step `absurd` of these words.
pub fn absurd(words: &[u8]) -> Option<Step>
    ensures { ReadsStepByAny (codes "absurd") words.now result }
{
    Some(Step::Absurd(only_number(words, false)?))
}

/// The step `clash` of these words.
pub fn clash(words: &[u8]) -> Option<Step>
    ensures { ReadsStepByAny (codes "clash") words.now result }
{
    Some(Step::Clash(only_number(words, true)?))
}

/// The step `solve` of these words.
pub fn solve(words: &[u8]) -> Option<Step>
    ensures { ReadsStepByAny (codes "solve") words.now result }
{
    Some(Step::Solve(only_number(words, false)?))
}

/// The step `decompose` of these words.
pub fn decompose(words: &[u8]) -> Option<Step>
    ensures { ReadsStepByAny (codes "decompose") words.now result }
{
    let (conclusion, number) = only_equation(words)?;
    Some(Step::Decompose(conclusion, number))
}

/// The step `drop` of these words.
pub fn leave_out(words: &[u8]) -> Option<Step>
    ensures { ReadsStepByAny (codes "drop") words.now result }
{
    let (conclusion, number) = only_equation(words)?;
    Some(Step::Drop(conclusion, number))
}

/// The step `match` of these words.
pub fn match_premise(words: &[u8]) -> Option<Step>
    ensures { ReadsStepByAny (codes "match") words.now result }
{
    let (first, conclusion, rest) = next_equation(words)?;
    let premise = only_number(rest, false)?;
    if first {
        Some(Step::Match(conclusion, premise))
    } else {
        None
    }
}
