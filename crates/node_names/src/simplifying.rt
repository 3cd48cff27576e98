//! Clauses with equations taken out, taken apart or solved.

use clause_core::{Clause, MOST_SYMBOLS, instance};
use spec_core::Equation;
use std::alloc::Global;
use substitutions::Subst;
use term_core::{OutOfMemory, Seq, Term, TermNode, VarId};

/// The clause without the conclusion (true) or premise of this number, if there is one.
pub(crate) fn without(
    alloc: Global,
    clause: &Clause,
    conclusion: bool,
    number: u16,
) -> Result<Option<Clause>, OutOfMemory> {
    let Some(_) = clause.equation(conclusion, number) else {
        return Ok(None);
    };
    let none = Vec::new(alloc);
    Ok(Some(clause.exchanged(alloc, conclusion, number, none)?))
}

/// The clause with the arguments equated in the place of the sides: all of a premise, and of a
/// conclusion those at this index.
pub(crate) fn taken_apart(
    alloc: Global,
    clause: &Clause,
    conclusion: bool,
    number: u16,
    index: usize,
) -> Result<Option<Clause>, OutOfMemory> {
    let Some(equation) = clause.equation(conclusion, number) else {
        return Ok(None);
    };
    let (TermNode::App(_, lefts), TermNode::App(_, rights)) = (
        &equation.left.node,
        &equation.right.node,
    ) else {
        return Ok(None);
    };
    let only = if conclusion { Some(index) } else { None };
    let parts = parts(alloc, lefts.as_slice(), rights.as_slice(), only)?;
    Ok(Some(clause.exchanged(alloc, conclusion, number, parts)?))
}

/// The equations of the terms at the same places, or of those at the only place, if one is given.
fn parts(
    alloc: Global,
    lefts: &[Term],
    rights: &[Term],
    only: Option<usize>,
) -> Result<Vec<Equation>, OutOfMemory> {
    let mut made = Vec::new(alloc);
    for (place, left) in lefts.iter().enumerate() {
        if let Some(right) = rights.get(place) {
            if only.unwrap_or(place) == place {
                let left = left.copy(alloc)?;
                let right = right.copy(alloc)?;
                made.push(Equation { left, right })?;
            }
        }
    }
    Ok(made)
}

/// The clause without the premise of this number, with the other side for the variable that is a
/// side of it.
pub(crate) fn solved(
    alloc: Global,
    clause: &Clause,
    number: u16,
) -> Result<Option<Clause>, OutOfMemory> {
    let Some(premise) = clause.equation(false, number) else {
        return Ok(None);
    };
    let Some((variable, term)) = variable_side(premise) else {
        return Ok(None);
    };
    let rest = clause.exchanged(alloc, false, number, Vec::new(alloc))?;
    with_term(alloc, &rest, variable, term.copy(alloc)?)
}

/// The side that is a variable, the left one where both are, and the other one.
fn variable_side(equation: &Equation) -> Option<(VarId, &Term)> {
    if let TermNode::Var(variable) = &equation.left.node {
        return Some((*variable, &equation.right));
    }
    if let TermNode::Var(variable) = &equation.right.node {
        return Some((*variable, &equation.left));
    }
    None
}

/// The clause with the pattern for the variable, where the pattern's variables are numbered after
/// the clause's own.
pub(crate) fn covered(
    alloc: Global,
    clause: &Clause,
    variable: VarId,
    pattern: &Term,
) -> Result<Option<Clause>, OutOfMemory> {
    let taken = clause.ctx.len();
    let count = pattern.bound();
    if taken > MOST_SYMBOLS as usize || count > MOST_SYMBOLS as u64 {
        return Ok(None);
    }
    let theta = variables(alloc, taken as u32, count as u32)?;
    let put = theta.apply(alloc, pattern)?;
    with_term(alloc, clause, variable, put)
}

/// This many variables from `first` on as the entries of the first variables.
fn variables(alloc: Global, first: u32, count: u32) -> Result<Subst, OutOfMemory> {
    let mut made = Seq::new(alloc);
    for number in first..first.saturating_add(count) {
        made.push(Some(Term::var(VarId(number))))?;
    }
    Ok(Subst { terms: made })
}

/// The clause with the term for the variable, if it is one of the clause's.
fn with_term(
    alloc: Global,
    clause: &Clause,
    variable: VarId,
    term: Term,
) -> Result<Option<Clause>, OutOfMemory> {
    if variable.0 as usize >= clause.ctx.len() {
        return Ok(None);
    }
    let mut theta = Subst::new(alloc);
    theta.set(alloc, variable, term)?;
    Ok(Some(instance(alloc, clause, &theta, clause.ctx.as_slice())?))
}
