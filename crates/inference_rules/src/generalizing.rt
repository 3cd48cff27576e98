//! The step `generalize`.

ghost use Rattle.std.specs.Prelude.{◌≡◌, ◌↔◌, IfOk, IsTrue, MatchOption, length, map};
ghost use Rattle.term_core.specs.Tree.{trees_of};
ghost use Rattle.term_core.specs.declared.ids.SortId.{SortId as Sort};
ghost use Rattle.clause_core.specs.Abstracting.{abstracted as with_variable, abstracted_equation};
ghost use Rattle.clause_core.specs.Abstracting.{generalized as generalized_by};
ghost use Rattle.clause_core.specs.Clauses.{sides_of};
ghost use Rattle.clause_core.specs.Generalizing.{IsGeneral, StandsIn, generalize_row};
ghost use Rattle.inference_rules.specs.Answers.{AnsweredAlone};
ghost use Rattle.inference_rules.specs.Parts.{IsPart, IsPartOfAny};

use crate::making::related_alone;
use crate::nodes::StepError;
use clause_core::{Children, Clause, Relation, Why};
use spec_core::{Equation, Signature, Spec};
use std::alloc::Global;
use term_core::{OutOfMemory, Seq, SortId, Term, TermNode, Terms, VarId};

/// `generalize`: a fresh variable stands for each occurrence of the term, which is sorted and no
/// variable.
pub(crate) fn generalize(
    alloc: Global,
    spec: &Spec,
    here: &Clause,
    term: &Term,
) -> Result<Children, StepError>
    ensures { AnsweredAlone here.now (generalize_row spec.now here.now term.now) result }
{
    let Some(sort) = general_sort(&spec.sig, here.ctx.as_slice(), term) else {
        return Err(StepError::Why(Why::Sort));
    };
    if !stands_in(term, here) {
        return Err(StepError::Why(Why::DoesNotFit));
    }
    let child = generalized(alloc, here, term, sort)?;
    related_alone(alloc, Relation::Same, child)
}

/// The sort of a term that is no variable.
fn general_sort(sig: &Signature, ctx: &[SortId], term: &Term) -> Option<SortId>
    ensures { MatchOption result
        ((s : Sort) → IsGeneral sig.now ctx.now term.now s → ⊥)
        (λ s. IsGeneral sig.now ctx.now term.now s) }
{
    match &term.node {
        TermNode::Var(_) => None,
        TermNode::App(_, _) => sig.sort_of(ctx, term),
    }
}

/// Whether the term occurs somewhere in the clause.
fn stands_in(term: &Term, clause: &Clause) -> bool
    ensures { IsTrue result ↔ StandsIn term.now clause.now }
{
    stands_in_sides(term, clause.premises.as_slice())
        || stands_in_sides(term, clause.conclusions.as_slice())
}

/// Whether the term occurs somewhere in the equations.
fn stands_in_sides(term: &Term, equations: &[Equation]) -> bool
    ensures { IsTrue result ↔ IsPartOfAny term.now (trees_of (sides_of equations.now)) }
{
    for equation in equations {
        if is_part(term, &equation.left) || is_part(term, &equation.right) {
            return true;
        }
    }
    false
}

/// Whether the term is the other one or occurs in it.
#[cycle(is_part)]
fn is_part(term: &Term, whole: &Term) -> bool
    ensures { IsTrue result ↔ IsPart term.now whole.now }
{
    if term.same(whole) {
        return true;
    }
    match &whole.node {
        TermNode::Var(_) => false,
        TermNode::App(_, args) => is_part_of_any(term, args.as_slice()),
    }
}

/// Whether the term is one of the others or occurs in one.
#[cycle(is_part)]
fn is_part_of_any(term: &Term, terms: &[Term]) -> bool
    ensures { IsTrue result ↔ IsPartOfAny term.now (trees_of terms.now) }
{
    for whole in terms {
        if is_part(term, whole) {
            return true;
        }
    }
    false
}

/// The clause with a fresh variable of the sort for each occurrence of the term. More variables
/// than there are numbers count as want of memory.
fn generalized(
    alloc: Global,
    clause: &Clause,
    term: &Term,
    sort: SortId,
) -> Result<Clause, OutOfMemory>
    ensures { IfOk result (λ made. made ≡ generalized_by clause.now term.now sort) }
{
    let taken = clause.ctx.as_slice();
    if taken.len() > u32::MAX as usize {
        return Err(OutOfMemory);
    }
    let fresh = VarId(taken.len() as u32);
    let mut ctx = Vec::new(alloc);
    ctx.extend_from_slice(taken)?;
    ctx.push(sort)?;
    Ok(Clause {
        ctx: Seq::from_vec(ctx),
        premises: abstracted_equations(alloc, clause.premises.as_slice(), term, fresh)?,
        conclusions: abstracted_equations(alloc, clause.conclusions.as_slice(), term, fresh)?,
    })
}

/// The equations with the variable for each occurrence of the term.
fn abstracted_equations(
    alloc: Global,
    equations: &[Equation],
    term: &Term,
    var: VarId,
) -> Result<Seq<Equation>, OutOfMemory>
    ensures { IfOk result (λ made. made ≡ map (abstracted_equation term.now var.0) equations.now) }
{
    let mut made = Vec::with_capacity(alloc, equations.len())?;
    for equation in equations {
        made.push(Equation {
            left: abstracted(alloc, &equation.left, term, var)?,
            right: abstracted(alloc, &equation.right, term, var)?,
        })?;
    }
    Ok(Seq::from_vec(made))
}

/// The whole with the variable for each occurrence of the term, which is no variable.
#[cycle(abstracted)]
fn abstracted(alloc: Global, whole: &Term, term: &Term, var: VarId) -> Result<Term, OutOfMemory>
    ensures { IfOk result (λ made. made ≡ with_variable term.now var.0 whole.now) }
{
    match &whole.node {
        TermNode::Var(other) => Ok(Term::var(*other)),
        TermNode::App(sym, args) => {
            if term.same(whole) {
                return Ok(Term::var(var));
            }
            let args = abstracted_all(alloc, args.as_slice(), term, var)?;
            Ok(Term::app(*sym, args))
        }
    }
}

/// The same of terms in their order.
#[cycle(abstracted)]
fn abstracted_all(
    alloc: Global,
    terms: &[Term],
    term: &Term,
    var: VarId,
) -> Result<Terms, OutOfMemory>
    ensures { IfOk result (λ made. made ≡ map (with_variable term.now var.0) terms.now) }
{
    let mut made = Terms::with_capacity(alloc, terms.len())?;
    for whole in terms {
        made.push(abstracted(alloc, whole, term, var)?)?;
    }
    Ok(made)
}
