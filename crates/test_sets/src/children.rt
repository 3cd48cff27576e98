//! The clauses with each pattern for the variable.

ghost use Rattle.std.specs.Prelude.{◌≡◌, ◌<◌, IfOk, MatchOption, length, map};
ghost use Rattle.std.specs.List.{AllByRecursion};
ghost use Rattle.clause_core.specs.Limits.{IsWithin};
ghost use Rattle.test_sets.specs.Children.{child_by};

use crate::patterns::{push_sorts, variables};
use clause_core::{Clause, instance, instance_within, tidy};
use spec_core::Signature;
use std::alloc::Global;
use substitutions::Subst;
use term_core::{OutOfMemory, SortId, Term, VarId};

/// The clauses with each pattern for the variable, tidied; None if one of them passes a limit.
pub(crate) fn children(
    alloc: Global,
    sig: &Signature,
    clause: &Clause,
    var: VarId,
    sort: SortId,
    patterns: &[Term],
) -> Result<Option<Vec<Clause>>, OutOfMemory>
    requires { var.0 < length clause.now.ctx }
    ensures { IfOk result (λ found. MatchOption found
        (AllByRecursion IsWithin
        (map (child_by sig.now clause.now var.0 sort) patterns.now) → ⊥)
        (λ made. (made.items ≡ map (child_by sig.now clause.now var.0 sort) patterns.now)
        × AllByRecursion IsWithin made.items)) }
{
    let mut made = Vec::with_capacity(alloc, patterns.len())?;
    for pattern in patterns {
        match child(alloc, sig, clause, var, sort, pattern)? {
            Some(child) => made.push(child)?,
            None => return Ok(None),
        }
    }
    Ok(Some(made))
}

/// The clause with the pattern for the variable, tidied; None if it passes a limit. One that
/// passes a limit is not built.
fn child(
    alloc: Global,
    sig: &Signature,
    clause: &Clause,
    var: VarId,
    sort: SortId,
    pattern: &Term,
) -> Result<Option<Clause>, OutOfMemory>
    requires { var.0 < length clause.now.ctx }
    ensures { IfOk result (λ found. MatchOption found
        (IsWithin (child_by sig.now clause.now var.0 sort pattern.now) → ⊥)
        (λ made. (made ≡ child_by sig.now clause.now var.0 sort pattern.now)
        × IsWithin made)) }
{
    let taken = clause.ctx.as_slice();
    let mut ctx = Vec::new(alloc);
    ctx.extend_from_slice(taken)?;
    push_sorts(sig, sort, pattern, &mut ctx)?;
    let fresh = variables(alloc, taken.len(), ctx.len())?;
    let mut theta = Subst::new(alloc);
    theta.set(alloc, var, fresh.apply(alloc, pattern)?)?;
    if !instance_within(clause, &theta) {
        return Ok(None);
    }
    let child = instance(alloc, clause, &theta, &ctx)?;
    Ok(Some(tidy(alloc, child)?))
}
