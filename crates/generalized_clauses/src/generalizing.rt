//! `generalizations`: all kinds, in the order in which they are tried.

use crate::accumulators::add_accumulators;
use crate::candidates::size_of;
use crate::copies::copied;
use crate::fewer_premises::add_fewer_premises;
use crate::occurrences_apart::add_occurrences_apart;
use crate::repeated_subterms::{add_all_repeated, add_each_repeated};
use clause_core::Clause;
use spec_core::Signature;
use std::alloc::Global;
use term_core::OutOfMemory;

/// The most symbols of a clause that is generalized. How many candidates there are grows with the
/// square of the symbols.
const MOST_SYMBOLS: u32 = 120;

/// The generalizations of the clause: variables for all subterms that occur again; for each of them
/// alone, and what is more general still; for small values; occurrences of variables apart; and a
/// premise less. Each is tidied and within the limits of a clause in a proof.
pub fn generalizations(
    alloc: Global,
    sig: &Signature,
    clause: &Clause,
) -> Result<Vec<Clause>, OutOfMemory> {
    let mut found = Vec::new(alloc);
    if size_of(clause) > MOST_SYMBOLS {
        return Ok(found);
    }
    add_all_repeated(alloc, sig, clause, &mut found)?;
    add_repeated_and_more(alloc, sig, clause, &mut found)?;
    add_accumulators(alloc, sig, clause, &mut found)?;
    add_occurrences_apart(alloc, clause, &mut found)?;
    add_fewer_premises(alloc, clause, &mut found)?;
    Ok(found)
}

/// Adds the clauses with a variable for one subterm that occurs again, each with what is more
/// general.
fn add_repeated_and_more(
    alloc: Global,
    sig: &Signature,
    clause: &Clause,
    found: &mut Vec<Clause>,
) -> Result<(), OutOfMemory> {
    let mut firsts = Vec::new(alloc);
    add_each_repeated(alloc, sig, clause, &mut firsts)?;
    for first in &firsts {
        found.push(copied(alloc, first)?)?;
        add_once_more(alloc, sig, first, found)?;
    }
    Ok(())
}

/// Adds what is more general than a clause that was generalized. Occurrences aren't taken apart
/// there.
fn add_once_more(
    alloc: Global,
    sig: &Signature,
    clause: &Clause,
    found: &mut Vec<Clause>,
) -> Result<(), OutOfMemory> {
    add_all_repeated(alloc, sig, clause, found)?;
    add_each_repeated(alloc, sig, clause, found)?;
    add_accumulators(alloc, sig, clause, found)?;
    add_fewer_premises(alloc, clause, found)
}
