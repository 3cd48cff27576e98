//! Whether a clause is worth being tried as a lemma, and how soon.

use crate::ranking::{Ranked, add_ranked};
use crate::trimmed::trimmed;
use clause_core::{Clause, is_identity, tidied_within};
use spec_core::Signature;
use std::alloc::Global;
use term_core::OutOfMemory;

/// The most variables of a candidate, and the most symbols.
const MOST_VARIABLES: usize = 8;

const MOST_SYMBOLS: u32 = 50;

/// Adds the clause, trimmed, if it is worth trying.
pub(crate) fn add_candidate(
    alloc: Global,
    sig: &Signature,
    clause: &Clause,
    items: &mut Vec<Ranked>,
) -> Result<(), OutOfMemory> {
    let Some(made) = tidied_within(alloc, trimmed(alloc, sig, clause)?)? else {
        return Ok(());
    };
    if !is_worth_trying(&made) {
        return Ok(());
    }
    add_ranked(rank_of(&made), made, items)
}

/// Whether the clause has some variables, but few, and few symbols, and isn't one identity.
fn is_worth_trying(clause: &Clause) -> bool {
    if clause.ctx.is_empty() || clause.ctx.len() > MOST_VARIABLES {
        return false;
    }
    if size_of(clause) > MOST_SYMBOLS {
        return false;
    }
    match clause.conclusions.as_slice() {
        [only] => !is_identity(only),
        _ => true,
    }
}

/// The rank of a clause that is worth trying: small ones come first, with few premises and many
/// variables.
fn rank_of(clause: &Clause) -> usize {
    let size = size_of(clause).min(MOST_SYMBOLS) as usize;
    let premises = clause.premises.len().min(MOST_SYMBOLS as usize);
    let variables = clause.ctx.len().min(MOST_VARIABLES);
    (2 * size + 3 * premises).saturating_sub(2 * variables)
}

/// How many symbols and variables the clause has.
pub(crate) fn size_of(clause: &Clause) -> u32 {
    let premises = clause.premises.as_slice();
    let conclusions = clause.conclusions.as_slice();
    let mut size: u32 = 0;
    for equation in premises.iter().chain(conclusions) {
        size = size.saturating_add(equation.left.size(u32::MAX));
        size = size.saturating_add(equation.right.size(u32::MAX));
    }
    size
}
