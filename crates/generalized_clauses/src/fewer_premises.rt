//! Clauses without one of their premises.

use crate::copies::keep;
use clause_core::{Clause, copy_equations};
use std::alloc::Global;
use term_core::OutOfMemory;

/// Adds the clauses without one of the premises, in the order of these.
pub(crate) fn add_fewer_premises(
    alloc: Global,
    clause: &Clause,
    found: &mut Vec<Clause>,
) -> Result<(), OutOfMemory> {
    for index in 0..clause.premises.len() {
        let mut others = copy_equations(alloc, clause.premises.as_slice())?;
        others.remove(index);
        keep(alloc, clause.with_equations(alloc, false, others)?, found)?;
    }
    Ok(())
}
