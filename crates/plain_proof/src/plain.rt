//! `first_plain`: the first variable with a plain proof.

ghost use Rattle.std.specs.Prelude.{◌≡◌, ◌≤◌, IfOk, length as length_of};
ghost use Rattle.spec_core.specs.WellSorted.{IsWellSorted, GoalIsSorted};
ghost use Rattle.spec_core.specs.WellSorted.{sorts_of as sorts_of_variables};
ghost use Rattle.plain_proof.specs.CaseAnswers.{HasSort, IsFirstCovered};
ghost use Rattle.plain_proof.specs.FirstPlain.{IsFirstPlain};

use crate::limits::are_within;
use crate::measuring::{Split, has_cases};
use crate::occurring::occurs_in;
use normalization::Rewriter;
use spec_core::{Equation, Goal, Spec, VarInfo};
use std::alloc::Global;
use term_core::{OutOfMemory, SortId, VarId};

/// The first variable, in the goal's own order, on which the goal has a plain proof of at most this
/// length; None if it has none on any variable. A goal with a premise, or without exactly one
/// conclusion, has none.
///
/// The stack grows with the length, which is at most 1,000.
pub fn first_plain(
    alloc: Global,
    spec: &Spec,
    goal: &Goal,
    length: u32,
) -> Result<Option<VarId>, OutOfMemory>
    requires fine { IsWellSorted spec.now }
    requires sorted { GoalIsSorted spec.now.sig goal.now }
    requires short { length ≤ 1000 }
    ensures { IfOk result (IsFirstPlain spec.now goal.now length) }
{
    if !goal.premises.is_empty() || goal.conclusions.len() != 1 {
        return Ok(None);
    }
    let equation = &goal.conclusions.as_slice()[0];
    if !are_within(alloc, &equation.left, &equation.right)? {
        return Ok(None);
    }
    let ctx = sorts_of(alloc, goal.vars.as_slice())?;
    first_covered(alloc, spec, &ctx, equation, length)
}

/// The first variable that occurs in the equation and whose cases close by at most this length.
fn first_covered(
    alloc: Global,
    spec: &Spec,
    ctx: &[SortId],
    equation: &Equation,
    length: u32,
) -> Result<Option<VarId>, OutOfMemory>
    requires fine { IsWellSorted spec.now }
    requires few { length_of ctx.now ≤ 16 }
    requires sorted { HasSort spec.now ctx.now equation.now }
    requires short { length ≤ 1000 }
    ensures { IfOk result (IsFirstCovered spec.now ctx.now equation.now length) }
{
    let rewriter = Rewriter::new(alloc, spec)?;
    for (index, sort) in ctx.iter().enumerate() {
        let var = VarId(index as u32);
        if !occurs_in(var, equation) {
            continue;
        }
        let split = Split {
            spec,
            rewriter: &rewriter,
            ctx,
            equation,
            var,
        };
        if has_cases(alloc, &split, *sort, length)? {
            return Ok(Some(var));
        }
    }
    Ok(None)
}

/// The sorts of the variables, by number.
fn sorts_of(alloc: Global, vars: &[VarInfo]) -> Result<Vec<SortId>, OutOfMemory>
    ensures { IfOk result (λ made. made.items ≡ sorts_of_variables vars.now) }
{
    let mut sorts = Vec::with_capacity(alloc, vars.len())?;
    for var in vars {
        sorts.push(var.sort)?;
    }
    Ok(sorts)
}
