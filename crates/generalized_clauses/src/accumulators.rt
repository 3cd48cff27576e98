//! Variables for the values with which accumulators start.

use crate::abstracting::abstracted;
use crate::copies::keep;
use crate::parts::{calls, contains, parts};
use clause_core::Clause;
use spec_core::Signature;
use std::alloc::Global;
use term_core::{OutOfMemory, Term, TermNode};

/// The most symbols of a value for which a variable is put.
const MOST_SYMBOLS: u32 = 3;

/// Adds the clauses with a variable for one of the small values below the roots, by first
/// occurrence.
pub(crate) fn add_accumulators(
    alloc: Global,
    sig: &Signature,
    clause: &Clause,
    found: &mut Vec<Clause>,
) -> Result<(), OutOfMemory> {
    let values = small_values(alloc, sig, clause)?;
    for value in &values {
        if let Some(made) = abstracted(alloc, sig, clause, value)? {
            keep(alloc, made, found)?;
        }
    }
    Ok(())
}

/// The small values below the roots, each once.
fn small_values<'a>(
    alloc: Global,
    sig: &Signature,
    clause: &'a Clause,
) -> Result<Vec<&'a Term>, OutOfMemory> {
    let parts = parts(alloc, clause)?;
    let mut found: Vec<&'a Term> = Vec::new(alloc);
    for part in &parts {
        if is_small_value(sig, part) && !contains(&found, part) {
            found.push(*part)?;
        }
    }
    Ok(found)
}

/// Whether the term is a value of few symbols, but neither `true` nor `false`, whose symbols are 0
/// and 1.
fn is_small_value(sig: &Signature, term: &Term) -> bool {
    match &term.node {
        TermNode::Var(_) => false,
        TermNode::App(sym, _) => {
            sym.0 >= 2
                && term.bound() == 0
                && term.size(MOST_SYMBOLS + 1) <= MOST_SYMBOLS
                && !calls(sig, term)
        }
    }
}
