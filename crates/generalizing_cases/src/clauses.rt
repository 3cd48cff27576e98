//! The clauses of goals, by the goals' names.

use anyhow::{Result, bail};
use clause_core::{Clause, of_goal};
use spec_core::{Equation, Spec};
use std::alloc::Global;

/// The clauses of the goals of these names.
pub fn clauses(alloc: Global, spec: &Spec, names: &[&str]) -> Result<Vec<Clause>> {
    let mut made = Vec::new(alloc);
    for name in names {
        made.push(clause(alloc, spec, name)?)?;
    }
    Ok(made)
}

/// The clause of the goal of this name.
pub fn clause(alloc: Global, spec: &Spec, name: &str) -> Result<Clause> {
    for goal in &spec.goals {
        if goal.name.as_bytes() == name.as_bytes() {
            return Ok(of_goal(alloc, goal)?);
        }
    }
    bail!("there is no goal of a name")
}

/// Whether both lists have the same clauses, with the sorts of their variables.
pub fn are_same(found: &[Clause], wanted: &[Clause]) -> bool {
    found.len() == wanted.len()
        && found
            .iter()
            .zip(wanted)
            .all(|(one, other)| is_same(one, other))
}

fn is_same(one: &Clause, other: &Clause) -> bool {
    one.ctx.as_slice() == other.ctx.as_slice()
        && same_equations(one.premises.as_slice(), other.premises.as_slice())
        && same_equations(one.conclusions.as_slice(), other.conclusions.as_slice())
}

fn same_equations(found: &[Equation], wanted: &[Equation]) -> bool {
    found.len() == wanted.len()
        && found.iter().zip(wanted).all(|(one, other)| one.left.same(&other.left)
            && one.right.same(&other.right))
}
