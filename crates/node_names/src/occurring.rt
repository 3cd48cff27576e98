//! The occurrences of variables in a clause.

use clause_core::Clause;
use spec_core::Equation;
use std::alloc::Global;
use term_core::{OutOfMemory, Term, TermNode, VarId};

/// A term that is generalized, and the variable that stands for it.
#[derive(Clone, Copy)]
pub(crate) struct General<'a> {
    pub(crate) term: &'a Term,
    pub(crate) fresh: VarId,
}

/// The occurrences of variables in the clause, from the left. The variable of `general`, if there
/// is one, stands for each occurrence of its term.
pub(crate) fn occurrences(
    alloc: Global,
    clause: &Clause,
    general: Option<General>,
) -> Result<Vec<VarId>, OutOfMemory> {
    let mut found = Vec::new(alloc);
    add_sides(clause.premises.as_slice(), general, &mut found)?;
    add_sides(clause.conclusions.as_slice(), general, &mut found)?;
    Ok(found)
}

fn add_sides(
    equations: &[Equation],
    general: Option<General>,
    found: &mut Vec<VarId>,
) -> Result<(), OutOfMemory> {
    for equation in equations {
        add(&equation.left, general, found)?;
        add(&equation.right, general, found)?;
    }
    Ok(())
}

/// Adds the occurrences in the term.
#[cycle(add)]
fn add(term: &Term, general: Option<General>, found: &mut Vec<VarId>) -> Result<(), OutOfMemory> {
    if let Some(put) = general {
        if put.term.same(term) {
            found.push(put.fresh)?;
            return Ok(());
        }
    }
    match &term.node {
        TermNode::Var(var) => {
            found.push(*var)?;
            Ok(())
        }
        TermNode::App(_, args) => add_all(args.as_slice(), general, found),
    }
}

/// Adds the occurrences in the terms, in their order.
#[cycle(add)]
fn add_all(
    terms: &[Term],
    general: Option<General>,
    found: &mut Vec<VarId>,
) -> Result<(), OutOfMemory> {
    for term in terms {
        add(term, general, found)?;
    }
    Ok(())
}
