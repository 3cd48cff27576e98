//! The kinds of steps that a node may take, in their order.

ghost use Rattle.std.specs.Prelude.{◌≡◌, [], ◌∷◌, IfOk, MatchOption};
ghost use Rattle.spec_core.specs.declared.records.Equation.{Equation as EquationOf};
ghost use Rattle.spec_core.specs.WellSorted.{IsWellSorted};
ghost use Rattle.clause_core.specs.Clauses.{ClauseIsSorted};
ghost use Rattle.clause_core.specs.Places.{side as side_of};
ghost use Rattle.plain_search.specs.Choices.{IsUse};
ghost use Rattle.plain_search.specs.Candidates.{IsStart, IsOnly, IsFullReference, IsCandidate};
ghost use Rattle.plain_search.specs.Candidates.{wanted};

use clause_core::{Children, Clause, Place, Step, side};
use fitting_lists::fitting_terms;
use normalization::Rewriter;
use spec_core::Equation;
use std::alloc::Global;
use term_core::{OutOfMemory, Seq, Term};

/// A kind of step that a node may take.
#[derive(Clone, Copy)]
pub enum Candidate {
    Trivial,
    /// The leftmost-innermost use of a rule on the left side of the conclusion.
    RuleOnLeft,
    /// The same on its right side.
    RuleOnRight,
    Decompose,
    /// The conclusion is an instance of that of the first node.
    AsWritten,
    /// It is one with its sides swapped.
    WithSidesSwapped,
}

/// A step with what it makes.
#[derive(Drop)]
pub struct Taken {
    pub step: Step,
    pub made: Children,
}

impl Candidate {
    /// All candidates, in the order in which they are tried.
    pub(crate) const ALL: [Candidate; 6] = [
        Candidate::Trivial,
        Candidate::RuleOnLeft,
        Candidate::RuleOnRight,
        Candidate::Decompose,
        Candidate::AsWritten,
        Candidate::WithSidesSwapped,
    ];

    /// The step that the candidate stands for at a clause, in the block of `start`, before the
    /// table is asked what it makes.
    pub(crate) fn step(
        self,
        alloc: Global,
        rewriter: &Rewriter,
        start: &Clause,
        here: &Clause,
    ) -> Result<Option<Step>, OutOfMemory>
        requires fine { IsWellSorted rewriter.now }
        requires start { IsStart start.now }
        requires sorted { ClauseIsSorted rewriter.now.sig here.now }
        ensures { IfOk result (IsOnly (IsCandidate rewriter.now start.now here.now self)) }
    {
        match self {
            Candidate::Trivial => Ok(Some(Step::Trivial(1))),
            Candidate::RuleOnLeft => use_on(alloc, rewriter, here, true),
            Candidate::RuleOnRight => use_on(alloc, rewriter, here, false),
            Candidate::Decompose => Ok(Some(Step::Decompose(true, 1))),
            Candidate::AsWritten => reference(alloc, start, here, false),
            Candidate::WithSidesSwapped => reference(alloc, start, here, true),
        }
    }
}

/// The leftmost-innermost use of a rule on the left side of the conclusion, if true, or on its
/// right side.
fn use_on(
    alloc: Global,
    rewriter: &Rewriter,
    here: &Clause,
    left: bool,
) -> Result<Option<Step>, OutOfMemory>
    requires fine { IsWellSorted rewriter.now }
    requires sorted { ClauseIsSorted rewriter.now.sig here.now }
    ensures { IfOk result (IsOnly (IsUse rewriter.now here.now left)) }
{
    let Some(conclusion) = here.conclusions.as_slice().first() else {
        return Ok(None);
    };
    match rewriter.first_use(alloc, side(conclusion, left))? {
        None => Ok(None),
        Some((path, number)) => {
            let place = Place {
                conclusion: true,
                number: 1,
                left,
                path: Seq::from_vec(path),
            };
            Ok(Some(Step::Rule(place, number)))
        }
    }
}

/// The reference to the first node by whose terms its conclusion becomes the one here, as written
/// or with its sides swapped.
fn reference(
    alloc: Global,
    start: &Clause,
    here: &Clause,
    swapped: bool,
) -> Result<Option<Step>, OutOfMemory>
    requires { IsStart start.now }
    ensures { IfOk result (IsOnly (IsFullReference start.now
        (wanted swapped here.now.conclusions))) }
{
    let Some(equation) = only(start.conclusions.as_slice()) else {
        unreachable!();
    };
    let Some(conclusion) = only(here.conclusions.as_slice()) else {
        return Ok(None);
    };
    let count = start.ctx.len();
    let left = side(conclusion, !swapped);
    let right = side(conclusion, swapped);
    match fitting_terms(alloc, count, equation, left, right)? {
        None => Ok(None),
        Some(terms) => Ok(Some(Step::Subsume(0, terms))),
    }
}

/// The only equation of a list.
fn only(equations: &[Equation]) -> Option<&Equation>
    ensures { MatchOption result ((e : EquationOf) → equations.now ≡ e ∷ [] → ⊥)
        (λ e. equations.now ≡ e.now ∷ []) }
{
    if equations.len() == 1 {
        equations.first()
    } else {
        None
    }
}
