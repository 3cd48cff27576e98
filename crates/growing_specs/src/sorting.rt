//! Whether a goal is well sorted.

ghost use Rattle.std.specs.Prelude.{◌≡◌, ◌↔◌, [], ◌∷◌, IsTrue, IfOk};
ghost use Rattle.std.specs.List.{AllByRecursion};
ghost use Rattle.spec_core.specs.Sig.{IsSort};
ghost use Rattle.spec_core.specs.WellSorted.{EquationsAreSorted, GoalIsSorted, sorts_of};
ghost use Rattle.spec_core.specs.declared.records.VarInfo.{VarInfo as VarInfoOf};
ghost use Rattle.growing_specs.specs.Growing.{AreSorted};

use spec_core::{Equation, Goal, Signature, VarInfo};
use std::alloc::Global;
use term_core::{OutOfMemory, SortId};

/// The greatest number of variables of a goal.
const MOST_VARIABLES: usize = 16;

/// Whether the goal is well sorted over the signature.
pub fn goal_is_sorted(alloc: Global, sig: &Signature, goal: &Goal) -> Result<bool, OutOfMemory>
    ensures { IfOk result (λ r. IsTrue r ↔ GoalIsSorted sig.now goal.now) }
{
    let sorts = sorts(alloc, goal.vars.as_slice())?;
    if goal.vars.len() > MOST_VARIABLES {
        return Ok(false);
    }
    if !have_sorts(sig, goal.vars.as_slice()) {
        return Ok(false);
    }
    if !are_sorted(sig, &sorts, goal.premises.as_slice()) {
        return Ok(false);
    }
    Ok(are_sorted(sig, &sorts, goal.conclusions.as_slice()))
}

/// The sorts of the variables, by number.
fn sorts(alloc: Global, vars: &[VarInfo]) -> Result<Vec<SortId>, OutOfMemory>
    ensures { IfOk result (λ r. r.items ≡ sorts_of vars.now) }
{
    let mut found = Vec::new(alloc);
    for var in vars {
        found.push(var.sort)?;
    }
    Ok(found)
}

/// Whether each variable has a sort of the signature.
fn have_sorts(sig: &Signature, vars: &[VarInfo]) -> bool
    ensures { IsTrue result ↔ AllByRecursion (λ (v : VarInfoOf). IsSort sig.now v.sort) vars.now }
{
    match vars {
        [] => true,
        [var, vars @ ..] => var.sort.0 < sig.sorts() && have_sorts(sig, vars),
    }
}

/// Whether both sides of each equation have one sort.
fn are_sorted(sig: &Signature, ctx: &[SortId], equations: &[Equation]) -> bool
    ensures { IsTrue result ↔ AreSorted sig.now ctx.now equations.now }
{
    match equations {
        [] => true,
        [equation, equations @ ..] => {
            is_sorted(sig, ctx, equation) && are_sorted(sig, ctx, equations)
        }
    }
}

/// Whether both sides of the equation have one sort.
fn is_sorted(sig: &Signature, ctx: &[SortId], equation: &Equation) -> bool
    ensures { IsTrue result ↔ AreSorted sig.now ctx.now (equation.now ∷ []) }
{
    match (
        sig.sort_of(ctx, &equation.left),
        sig.sort_of(ctx, &equation.right),
    ) {
        (Some(left), Some(right)) => left.0 == right.0,
        _ => false,
    }
}
