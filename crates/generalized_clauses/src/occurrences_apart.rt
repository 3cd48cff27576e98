//! Occurrences of a variable that get a variable of their own, where enough of the others stay.

use crate::abstracting::fresh_variable;
use crate::copies::keep;
use crate::occurrences::{Occurrence, Sides, occurrences};
use crate::renaming::with_variables;
use clause_core::Clause;
use std::alloc::Global;
use term_core::{OutOfMemory, VarId};

/// The fewest occurrences of a variable of which one is taken apart, and of which two are.
const FEWEST_FOR_ONE: usize = 3;

const FEWEST_FOR_TWO: usize = 4;

/// The indices of two occurrences that are taken apart, or of one as both.
#[derive(Clone, Copy)]
struct Pair {
    first: usize,
    second: usize,
}

/// Adds the clauses with a fresh variable for one occurrence of a variable below a root, and then
/// those for one on each side of the only conclusion.
pub(crate) fn add_occurrences_apart(
    alloc: Global,
    clause: &Clause,
    found: &mut Vec<Clause>,
) -> Result<(), OutOfMemory> {
    let occurrences = occurrences(alloc, clause)?;
    let pairs = pairs_apart(alloc, clause, &occurrences)?;
    for pair in &pairs {
        if let Some(made) = with_apart(alloc, clause, &occurrences, *pair)? {
            keep(alloc, made, found)?;
        }
    }
    Ok(())
}

/// The pairs of occurrences that are taken apart, first those of one.
fn pairs_apart(
    alloc: Global,
    clause: &Clause,
    occurrences: &[Occurrence],
) -> Result<Vec<Pair>, OutOfMemory> {
    let mut pairs = single_ones(alloc, occurrences)?;
    if clause.conclusions.len() == 1 {
        add_pairs(occurrences, &mut pairs)?;
    }
    Ok(pairs)
}

/// Whether the occurrence is below a root, and its variable occurs this often at least.
fn can_go(occurrences: &[Occurrence], one: Occurrence, fewest: usize) -> bool {
    let variable = one.variable;
    !one.is_side
        && occurrences
            .iter()
            .filter(|other| other.variable == variable)
            .count()
            >= fewest
}

fn single_ones(alloc: Global, occurrences: &[Occurrence]) -> Result<Vec<Pair>, OutOfMemory> {
    let mut made = Vec::new(alloc);
    for (index, one) in occurrences.iter().enumerate() {
        if can_go(occurrences, *one, FEWEST_FOR_ONE) {
            made.push(Pair {
                first: index,
                second: index,
            })?;
        }
    }
    Ok(made)
}

/// Adds the pairs of occurrences of one variable, the first of them on the left.
fn add_pairs(occurrences: &[Occurrence], made: &mut Vec<Pair>) -> Result<(), OutOfMemory> {
    for (index, one) in occurrences.iter().enumerate() {
        if one.sides == Sides::Lefts && can_go(occurrences, *one, FEWEST_FOR_TWO) {
            add_partners(occurrences, index, one.variable, made)?;
        }
    }
    Ok(())
}

fn add_partners(
    occurrences: &[Occurrence],
    first: usize,
    variable: VarId,
    made: &mut Vec<Pair>,
) -> Result<(), OutOfMemory> {
    for (second, other) in occurrences.iter().enumerate() {
        if other.sides == Sides::Rights && !other.is_side && other.variable == variable {
            made.push(Pair { first, second })?;
        }
    }
    Ok(())
}

/// The clause with a fresh variable at the occurrences of the pair.
fn with_apart(
    alloc: Global,
    clause: &Clause,
    occurrences: &[Occurrence],
    pair: Pair,
) -> Result<Option<Clause>, OutOfMemory> {
    let (Some(one), Some(fresh)) = (occurrences.get(pair.first), fresh_variable(clause)) else {
        return Ok(None);
    };
    let Some(sort) = clause.ctx.as_slice().get(one.variable.0 as usize) else {
        return Ok(None);
    };
    let variables = variables_apart(alloc, occurrences, pair, fresh)?;
    Ok(Some(with_variables(alloc, clause, &variables, *sort)?))
}

/// The variables of the occurrences, with the fresh one at those of the pair.
fn variables_apart(
    alloc: Global,
    occurrences: &[Occurrence],
    pair: Pair,
    fresh: VarId,
) -> Result<Vec<VarId>, OutOfMemory> {
    let mut made = Vec::with_capacity(alloc, occurrences.len())?;
    for (index, occurrence) in occurrences.iter().enumerate() {
        if index == pair.first || index == pair.second {
            made.push(fresh)?;
        } else {
            made.push(occurrence.variable)?;
        }
    }
    Ok(made)
}
