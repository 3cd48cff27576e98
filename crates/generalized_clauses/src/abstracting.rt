//! A fresh variable for each occurrence of a term.

use crate::copies::with_sort;
use clause_core::Clause;
use spec_core::{Equation, Signature};
use std::alloc::Global;
use term_core::{OutOfMemory, Seq, Term, TermNode, Terms, VarId};

/// The number of a variable that the clause doesn't have.
pub(crate) fn fresh_variable(clause: &Clause) -> Option<VarId> {
    match u32::try_from(clause.ctx.len()) {
        Ok(number) => Some(VarId(number)),
        Err(_) => None,
    }
}

/// The clause with a fresh variable for each occurrence of the term, if the term is sorted.
pub(crate) fn abstracted(
    alloc: Global,
    sig: &Signature,
    clause: &Clause,
    term: &Term,
) -> Result<Option<Clause>, OutOfMemory> {
    let ctx = clause.ctx.as_slice();
    let (Some(sort), Some(fresh)) = (sig.sort_of(ctx, term), fresh_variable(clause)) else {
        return Ok(None);
    };
    Ok(Some(Clause {
        ctx: with_sort(alloc, ctx, sort)?,
        premises: abstracted_equations(alloc, clause.premises.as_slice(), term, fresh)?,
        conclusions: abstracted_equations(alloc, clause.conclusions.as_slice(), term, fresh)?,
    }))
}

fn abstracted_equations(
    alloc: Global,
    equations: &[Equation],
    term: &Term,
    fresh: VarId,
) -> Result<Seq<Equation>, OutOfMemory> {
    let mut made = Vec::with_capacity(alloc, equations.len())?;
    for equation in equations {
        made.push(Equation {
            left: abstracted_term(alloc, &equation.left, term, fresh)?,
            right: abstracted_term(alloc, &equation.right, term, fresh)?,
        })?;
    }
    Ok(Seq::from_vec(made))
}

/// The whole with the variable for each occurrence of the term.
#[cycle(abstracted)]
fn abstracted_term(
    alloc: Global,
    whole: &Term,
    term: &Term,
    fresh: VarId,
) -> Result<Term, OutOfMemory> {
    if whole.same(term) {
        return Ok(Term::var(fresh));
    }
    match &whole.node {
        TermNode::Var(own) => Ok(Term::var(*own)),
        TermNode::App(sym, args) => {
            let args = abstracted_terms(alloc, args.as_slice(), term, fresh)?;
            Ok(Term::app(*sym, args))
        }
    }
}

/// The same of terms in their order.
#[cycle(abstracted)]
fn abstracted_terms(
    alloc: Global,
    terms: &[Term],
    term: &Term,
    fresh: VarId,
) -> Result<Terms, OutOfMemory> {
    let mut made = Terms::with_capacity(alloc, terms.len())?;
    for whole in terms {
        made.push(abstracted_term(alloc, whole, term, fresh)?)?;
    }
    Ok(made)
}
