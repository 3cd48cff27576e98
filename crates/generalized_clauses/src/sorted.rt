//! Whether clauses are well sorted.

ghost use Rattle.std.specs.Prelude.{All, IfOk, IsTrue};
ghost use Rattle.std.specs.List.{AllByRecursion};
ghost use Rattle.spec_core.specs.Sig.{IsSort};
ghost use Rattle.clause_core.specs.Clauses.{ClauseIsSorted};
ghost use Rattle.generalized_clauses.specs.Sorting.{HasOneSort};

use clause_core::Clause;
use spec_core::{Equation, Signature};
use std::alloc::Global;
use term_core::{OutOfMemory, SortId};

/// Those of the clauses that are well sorted, in their order.
pub(crate) fn sorted_ones(
    alloc: Global,
    sig: &Signature,
    clauses: Vec<Clause>,
) -> Result<Vec<Clause>, OutOfMemory>
    ensures { IfOk result (λ made. All (ClauseIsSorted sig.now) made.items) }
{
    let mut made = Vec::new(alloc);
    for clause in clauses {
        if is_sorted(sig, &clause) {
            made.push(clause)?;
        }
    }
    Ok(made)
}

/// Whether the sorts of the variables are the signature's, and both sides of each equation have
/// one sort.
fn is_sorted(sig: &Signature, clause: &Clause) -> bool
    ensures { IsTrue result → ClauseIsSorted sig.now clause.now }
{
    let ctx = clause.ctx.as_slice();
    let premises = clause.premises.as_slice();
    let conclusions = clause.conclusions.as_slice();
    if !are_sorts(sig, ctx) {
        return false;
    }
    if !have_one_sort(sig, ctx, premises) {
        return false;
    }
    have_one_sort(sig, ctx, conclusions)
}

fn are_sorts(sig: &Signature, sorts: &[SortId]) -> bool
    ensures { IsTrue result → AllByRecursion (IsSort sig.now) sorts.now }
{
    match sorts {
        [] => true,
        [first, others @ ..] => first.0 < sig.sorts() && are_sorts(sig, others),
    }
}

fn have_one_sort(sig: &Signature, ctx: &[SortId], equations: &[Equation]) -> bool
    ensures { IsTrue result → AllByRecursion (HasOneSort sig.now ctx.now) equations.now }
{
    match equations {
        [] => true,
        [first, others @ ..] => { has_one_sort(sig, ctx, first) && have_one_sort(sig, ctx, others) }
    }
}

fn has_one_sort(sig: &Signature, ctx: &[SortId], equation: &Equation) -> bool
    ensures { IsTrue result → HasOneSort sig.now ctx.now equation.now }
{
    match (
        sig.sort_of(ctx, &equation.left),
        sig.sort_of(ctx, &equation.right),
    ) {
        (Some(one), Some(other)) => one.0 == other.0,
        _ => false,
    }
}
