//! The occurrences of variables in a clause.

use clause_core::Clause;
use spec_core::Equation;
use std::alloc::Global;
use term_core::{OutOfMemory, Term, TermNode, VarId};

/// In which sides an occurrence is.
#[derive(Clone, Copy, PartialEq, Eq)]
pub(crate) enum Sides {
    Premises,
    Lefts,
    Rights,
}

/// An occurrence of a variable, and whether it is a side itself.
#[derive(Clone, Copy)]
pub(crate) struct Occurrence {
    pub(crate) variable: VarId,
    pub(crate) sides: Sides,
    pub(crate) is_side: bool,
}

/// The occurrences of variables, from the left, premises before conclusions.
pub(crate) fn occurrences(alloc: Global, clause: &Clause) -> Result<Vec<Occurrence>, OutOfMemory> {
    let mut found = Vec::new(alloc);
    for equation in clause.premises.as_slice() {
        add_term(&equation.left, Sides::Premises, true, &mut found)?;
        add_term(&equation.right, Sides::Premises, true, &mut found)?;
    }
    add_conclusions(clause.conclusions.as_slice(), &mut found)?;
    Ok(found)
}

fn add_conclusions(equations: &[Equation], found: &mut Vec<Occurrence>) -> Result<(), OutOfMemory> {
    for equation in equations {
        add_term(&equation.left, Sides::Lefts, true, found)?;
        add_term(&equation.right, Sides::Rights, true, found)?;
    }
    Ok(())
}

/// Adds the occurrences in a term that is a side or below one.
#[cycle(occurrences)]
fn add_term(
    term: &Term,
    sides: Sides,
    is_side: bool,
    found: &mut Vec<Occurrence>,
) -> Result<(), OutOfMemory> {
    match &term.node {
        TermNode::Var(variable) => {
            found.push(Occurrence {
                variable: *variable,
                sides,
                is_side,
            })?;
            Ok(())
        }
        TermNode::App(_, args) => add_below(args.as_slice(), sides, found),
    }
}

/// Adds the occurrences in the terms, which are below a root.
#[cycle(occurrences)]
fn add_below(terms: &[Term], sides: Sides, found: &mut Vec<Occurrence>) -> Result<(), OutOfMemory> {
    for term in terms {
        add_term(term, sides, false, found)?;
    }
    Ok(())
}
