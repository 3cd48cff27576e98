//! Goals of clauses, and what is asked of clauses.

use clause_core::{Clause, copy_equations, into_tidied, of_goal};
use goal_lines::variables;
use spec_core::{Equation, Goal, Signature};
use spec_grammar::{MAX_CONCLUSIONS, MAX_DEPTH, MAX_PREMISES};
use std::alloc::Global;
use term_core::{Name, OutOfMemory, Seq};

/// The goal of this name that says what the clause says.
pub(crate) fn goal_of(
    alloc: Global,
    sig: &Signature,
    name: Name,
    clause: &Clause,
) -> Result<Goal, OutOfMemory> {
    Ok(Goal {
        name,
        vars: variables(alloc, sig, clause.ctx.as_slice())?,
        premises: Seq::from_vec(copy_equations(alloc, clause.premises.as_slice())?),
        conclusions: Seq::from_vec(copy_equations(alloc, clause.conclusions.as_slice())?),
    })
}

/// What the goal says, and the same with the sides of its only conclusion exchanged.
pub(crate) fn both_ways(alloc: Global, goal: &Goal) -> Result<Vec<Clause>, OutOfMemory> {
    let mut both = Vec::new(alloc);
    let clause = of_goal(alloc, goal)?;
    if let [only] = clause.conclusions.as_slice() {
        let mut exchanged = copy_clause(alloc, &clause)?;
        let mut conclusions = Vec::new(alloc);
        conclusions.push(Equation {
            left: only.right.copy(alloc)?,
            right: only.left.copy(alloc)?,
        })?;
        exchanged.conclusions = Seq::from_vec(conclusions);
        both.push(into_tidied(alloc, exchanged)?)?;
    }
    both.push(clause)?;
    Ok(both)
}

/// A copy of the clause.
pub(crate) fn copy_clause(alloc: Global, clause: &Clause) -> Result<Clause, OutOfMemory> {
    let mut ctx = Seq::new(alloc);
    for sort in clause.ctx.as_slice() {
        ctx.push(*sort)?;
    }
    Ok(Clause {
        ctx,
        premises: Seq::from_vec(copy_equations(alloc, clause.premises.as_slice())?),
        conclusions: Seq::from_vec(copy_equations(alloc, clause.conclusions.as_slice())?),
    })
}

/// How many symbols and variables the clause has.
pub(crate) fn size(clause: &Clause) -> u32 {
    size_of_all(clause.premises.as_slice()).saturating_add(size_of_all(
        clause.conclusions.as_slice(),
    ))
}

/// Whether a text may have the clause as a goal: it has few equations, and its terms are no deeper
/// than terms of a text.
pub(crate) fn fits_in_text(clause: &Clause) -> bool {
    clause.premises.len() <= MAX_PREMISES
        && clause.conclusions.len() <= MAX_CONCLUSIONS
        && size(clause) as usize <= MAX_DEPTH
}

fn size_of_all(equations: &[Equation]) -> u32 {
    let mut sum: u32 = 0;
    for equation in equations {
        let sides = equation
            .left
            .size(u32::MAX)
            .saturating_add(equation.right.size(u32::MAX));
        sum = sum.saturating_add(sides);
    }
    sum
}

/// Whether the clauses are the same.
pub(crate) fn are_same(one: &Clause, other: &Clause) -> bool {
    one.ctx.len() == other.ctx.len()
        && one
            .ctx
            .as_slice()
            .iter()
            .zip(other.ctx.as_slice())
            .all(|(one, other)| one.0 == other.0)
        && equal(one.premises.as_slice(), other.premises.as_slice())
        && equal(one.conclusions.as_slice(), other.conclusions.as_slice())
}

fn equal(equations: &[Equation], others: &[Equation]) -> bool {
    equations.len() == others.len()
        && equations.iter().zip(others).all(|(one, other)| one.left.same(&other.left)
            && one.right.same(&other.right))
}
