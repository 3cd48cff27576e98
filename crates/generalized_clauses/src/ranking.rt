//! Clauses by a rank, each once.

use clause_core::Clause;
use spec_core::Equation;
use std::alloc::Global;
use term_core::OutOfMemory;

/// A clause with its rank.
#[derive(Drop)]
pub(crate) struct Ranked {
    rank: usize,
    clause: Clause,
}

/// Adds the clause with its rank, if it isn't there.
pub(crate) fn add_ranked(
    rank: usize,
    clause: Clause,
    items: &mut Vec<Ranked>,
) -> Result<(), OutOfMemory> {
    let found = items
        .iter()
        .any(|item| item.rank == rank && is_same(&item.clause, &clause));
    if !found {
        items.push(Ranked { rank, clause })?;
    }
    Ok(())
}

/// The clauses by their ranks, those of one rank in the order in which they were added.
pub(crate) fn into_clauses(alloc: Global, items: Vec<Ranked>) -> Result<Vec<Clause>, OutOfMemory> {
    let mut items = items;
    items.sort_by_key(|item| item.rank)?;
    let mut made = Vec::new(alloc);
    for item in items {
        made.push(item.clause)?;
    }
    Ok(made)
}

/// Whether both are one clause.
fn is_same(one: &Clause, other: &Clause) -> bool {
    one.ctx.as_slice() == other.ctx.as_slice()
        && are_same(one.premises.as_slice(), other.premises.as_slice())
        && are_same(one.conclusions.as_slice(), other.conclusions.as_slice())
}

fn are_same(ones: &[Equation], others: &[Equation]) -> bool {
    ones.len() == others.len()
        && ones.iter().zip(others).all(|(one, other)| one.left.same(&other.left)
            && one.right.same(&other.right))
}
