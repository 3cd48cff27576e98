//! The specification with constants, and the goal with its numbers.

ghost use Rattle.std.specs.Prelude.{◌≡◌, ◌≤◌, ◌++◌, ℕ, List, IfOk, Some, MatchOption, length};
ghost use Rattle.std.specs.Prelude.{slice_get};
ghost use Rattle.std.specs.List.{AllByRecursion};
ghost use Rattle.term_core.specs.declared.ids.SortId.{SortId};
ghost use Rattle.spec_core.specs.declared.records.VarInfo.{VarInfo};
ghost use Rattle.spec_core.specs.Sig.{Sig, IsSort};
ghost use Rattle.spec_core.specs.WellSorted.{IsWellSorted, sorts_of};
ghost use Rattle.open_evaluation.specs.Shifted.{IsNoBoolean};
ghost use Rattle.ground_eval.specs.ConstantSorts.{IsOther, IsFilled, AreFilled};
ghost use Rattle.ground_eval.specs.Opened.{HaveConstants, IsOpened};

use open_evaluation::{shifted_goal, with_constants};
use spec_core::{Goal, Spec, VarInfo};
use std::alloc::Global;
use term_core::{OutOfMemory, SortId, front};

/// A specification with constants for the variables of a goal, and the goal written with its
/// numbers. It is made once for a goal.
#[derive(Drop)]
pub struct OpenSpec {
    pub(crate) spec: Spec,
    pub(crate) goal: Goal,
}

impl OpenSpec {
    /// Makes constants of the variables' sorts. For a variable of sort `Bool`, which can't have one
    /// of its own sort, there is one of another variable's sort, or no constant if all variables
    /// are of sort `Bool`.
    pub fn new(alloc: Global, spec: &Spec, goal: &Goal) -> Result<OpenSpec, OutOfMemory>
        requires fine { IsWellSorted spec.now }
        requires listed { (k : ℕ) × (slice_get spec.now.goals k ≡ Some goal.now) }
        ensures { IfOk result (λ made. IsOpened spec.now goal.now made.spec made.goal) }
    {
        let sorts = constant_sorts(alloc, goal.vars.as_slice())?;
        let extended = with_constants(alloc, spec, &sorts)?;
        let count = sorts.len() as u32;
        let shifted = shifted_goal(alloc, spec.sig.constructors(), count, goal)?;
        Ok(OpenSpec {
            spec: extended,
            goal: shifted,
        })
    }
}

/// The sorts of the constants.
fn constant_sorts(alloc: Global, vars: &[VarInfo]) -> Result<Vec<SortId>, OutOfMemory>
    ensures constants { IfOk result (λ sorts. HaveConstants (sorts_of vars.now) sorts.items) }
    ensures no_booleans { IfOk result (λ sorts. AllByRecursion IsNoBoolean sorts.items) }
    ensures in_range { IfOk result (λ sorts. (sig : Sig)
        → AllByRecursion (λ (v : VarInfo). IsSort sig v.sort) vars.now
        → AllByRecursion (IsSort sig) sorts.items) }
    ensures few { IfOk result (λ sorts. length sorts.items ≤ length vars.now) }
{
    let mut sorts = Vec::new(alloc);
    match other_sort(vars) {
        None => Ok(sorts),
        Some(other) => {
            fill_sorts(vars, other, &mut sorts)?;
            Ok(sorts)
        }
    }
}

/// The first sort of a variable that isn't `Bool`.
fn other_sort(vars: &[VarInfo]) -> Option<SortId>
    ensures { MatchOption result (AllByRecursion (λ (v : VarInfo). v.sort.0 ≡ 0) vars.now)
        (λ s. IsOther vars.now s) }
{
    match front(vars) {
        None => None,
        Some((var, rest)) => {
            if var.sort.0 != 0 {
                Some(var.sort)
            } else {
                other_sort(rest)
            }
        }
    }
}

/// Adds the sort of each variable, and the other one in the place of `Bool`.
fn fill_sorts(vars: &[VarInfo], other: SortId, sorts: &mut Vec<SortId>) -> Result<(), OutOfMemory>
    ensures { IfOk result (λ _. (more : List SortId) × (sorts.new.items ≡ sorts.old.items ++ more)
        × AreFilled other vars.now more) }
{
    match front(vars) {
        None => Ok(()),
        Some((var, rest)) => {
            sorts.push(constant_sort(var.sort, other))?;
            fill_sorts(rest, other, sorts)
        }
    }
}

fn constant_sort(own: SortId, other: SortId) -> SortId
    ensures { IsFilled other own result }
{
    if own.0 == 0 { other } else { own }
}
