//! `instance`: a clause with terms for its variables.

ghost use Rattle.std.specs.Prelude.{◌≡◌, IfOk, map};
ghost use Rattle.clause_core.specs.ClauseInstances.{equation_instance, clause_instance};

use crate::clauses::Clause;
use spec_core::Equation;
use std::alloc::Global;
use substitutions::Subst;
use term_core::{OutOfMemory, Seq, SortId};

/// The clause with the entries of `theta` put in for its variables, all at once. The variables of
/// the entries are those of `ctx`, which is copied; a variable without an entry stays.
pub fn instance(
    alloc: Global,
    clause: &Clause,
    theta: &Subst,
    ctx: &[SortId],
) -> Result<Clause, OutOfMemory>
    ensures { IfOk result (λ made. made ≡ clause_instance theta.now.terms ctx.now clause.now) }
{
    Ok(Clause {
        ctx: copy_sorts(alloc, ctx)?,
        premises: equation_instances(alloc, clause.premises.as_slice(), theta)?,
        conclusions: equation_instances(alloc, clause.conclusions.as_slice(), theta)?,
    })
}

/// The equations in their order, with the entries put in.
fn equation_instances(
    alloc: Global,
    equations: &[Equation],
    theta: &Subst,
) -> Result<Seq<Equation>, OutOfMemory>
    ensures { IfOk result (λ made. made ≡ map (equation_instance theta.now.terms) equations.now) }
{
    let mut made = Vec::with_capacity(alloc, equations.len())?;
    for equation in equations {
        made.push(Equation {
            left: theta.apply(alloc, &equation.left)?,
            right: theta.apply(alloc, &equation.right)?,
        })?;
    }
    Ok(Seq::from_vec(made))
}

pub(crate) fn copy_sorts(alloc: Global, sorts: &[SortId]) -> Result<Seq<SortId>, OutOfMemory>
    ensures { IfOk result (λ made. made ≡ sorts.now) }
{
    let mut made = Vec::with_capacity(alloc, sorts.len())?;
    for sort in sorts {
        made.push(*sort)?;
    }
    Ok(Seq::from_vec(made))
}
