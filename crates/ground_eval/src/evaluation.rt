//! `eval` and `verdict`: one evaluation, and one verdict of a goal.

ghost use Rattle.std.specs.Prelude.{◌≡◌, ◌≢◌, ℕ, IfOk, Some, [], slice_get};
ghost use Rattle.term_core.specs.declared.ids.SortId.{SortId};
ghost use Rattle.spec_core.specs.Sorts.{Sorted};
ghost use Rattle.spec_core.specs.WellSorted.{IsWellSorted, sorts_of};
ghost use Rattle.spec_core.specs.Overlap.{NoOverlap};
ghost use Rattle.spec_core.specs.Groups.{GroupsAreWhole};
ghost use Rattle.spec_core.specs.Truth.{AreValuesOf, GoalFails};
ghost use Rattle.spec_core.specs.Verdict.{IsVerdict};
ghost use Rattle.ground_eval.specs.Evals.{IsEval, IsOnly};

use crate::answers::Eval;
use crate::over_bank::{Evaluate, verdict_in};
use crate::prepared::place_values;
use bank_machine::BankEval;
use spec_core::{Goal, Spec, Verdict};
use std::alloc::Global;
use term_core::{OutOfMemory, Term};
use value_bank::{Bank, TermError};

/// Evaluates a term without variables.
pub fn eval(alloc: Global, spec: &Spec, term: &Term, budget: u32) -> Result<Eval, OutOfMemory>
    requires fine { IsWellSorted spec.now }
    requires sorted { (s : SortId) × Sorted spec.now.sig [] term.now s }
    ensures found { IfOk result (IsEval spec.now term.now budget) }
    ensures only { IfOk result (IsOnly spec.now term.now) }
{
    let mut bank = Bank::new(alloc)?;
    match bank.run(alloc, spec, term, &[], budget)? {
        BankEval::Spent => Ok(Eval::Spent),
        BankEval::Value { id, steps } => match bank.term(alloc, id) {
            Ok(value) => Ok(Eval::Value { value, steps }),
            Err(TermError::Large) => Ok(Eval::Large { steps }),
            Err(TermError::OutOfMemory) => Err(OutOfMemory),
        },
    }
}

/// The verdict of a goal of the specification under these values of its variables.
pub fn verdict(
    alloc: Global,
    spec: &Spec,
    goal: &Goal,
    values: &[Term],
    budget: u32,
) -> Result<Verdict, OutOfMemory>
    requires fine { IsWellSorted spec.now }
    requires listed { (k : ℕ) × (slice_get spec.now.goals k ≡ Some goal.now) }
    requires values { AreValuesOf spec.now (sorts_of goal.now.vars) values.now }
    ensures verdict { IfOk result (λ r. NoOverlap spec.now → GroupsAreWhole spec.now
        → IsVerdict spec.now values.now budget goal.now r) }
    ensures sure { IfOk result (λ r. r ≢ Verdict.Spent
        → IsVerdict spec.now values.now budget goal.now r) }
    ensures fails { IfOk result (λ r. r ≡ Verdict.Fails → GoalFails spec.now values.now goal.now) }
{
    let mut bank = Bank::new(alloc)?;
    let ids = place_values(alloc, &mut bank, values)?;
    verdict_in(alloc, &mut bank, spec, goal, &ids, budget)
}
