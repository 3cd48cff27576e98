//! Variables for subterms that occur again: a proof that holds whatever they are doesn't look
//! into them.

use crate::abstracting::abstracted;
use crate::copies::{copied, keep};
use crate::parts::{calls, contains, count, is_side, parts};
use clause_core::Clause;
use spec_core::Signature;
use std::alloc::Global;
use std::cmp::Reverse;
use term_core::{OutOfMemory, Term, TermNode};

/// Adds the clause with variables for all subterms that occur again, the largest first. A smaller
/// one that then occurs once alone stays.
pub(crate) fn add_all_repeated(
    alloc: Global,
    sig: &Signature,
    clause: &Clause,
    found: &mut Vec<Clause>,
) -> Result<(), OutOfMemory> {
    let terms = repeated(alloc, sig, clause)?;
    if terms.is_empty() {
        return Ok(());
    }
    let mut made = copied(alloc, clause)?;
    for term in &terms {
        made = with_one_more(alloc, sig, made, term)?;
    }
    keep(alloc, made, found)
}

/// The clause with a variable for the term, if that still occurs twice at least.
fn with_one_more(
    alloc: Global,
    sig: &Signature,
    clause: Clause,
    term: &Term,
) -> Result<Clause, OutOfMemory> {
    if count(&parts(alloc, &clause)?, term) < 2 {
        return Ok(clause);
    }
    match abstracted(alloc, sig, &clause, term)? {
        Some(made) => Ok(made),
        None => Ok(clause),
    }
}

/// Adds the clauses with a variable for one of the subterms that occur again, the largest first.
pub(crate) fn add_each_repeated(
    alloc: Global,
    sig: &Signature,
    clause: &Clause,
    found: &mut Vec<Clause>,
) -> Result<(), OutOfMemory> {
    let terms = repeated(alloc, sig, clause)?;
    for term in &terms {
        if let Some(made) = abstracted(alloc, sig, clause, term)? {
            keep(alloc, made, found)?;
        }
    }
    Ok(())
}

/// The subterms that occur twice at least and are no side, each once, the largest first and those
/// of one size by first occurrence.
fn repeated<'a>(
    alloc: Global,
    sig: &Signature,
    clause: &'a Clause,
) -> Result<Vec<&'a Term>, OutOfMemory> {
    let parts = parts(alloc, clause)?;
    let mut found: Vec<&'a Term> = Vec::new(alloc);
    for part in &parts {
        let again = is_compound(sig, part) && count(&parts, part) >= 2;
        if again && !is_side(clause, part) && !contains(&found, part) {
            found.push(*part)?;
        }
    }
    found.sort_by_key(|term| Reverse(term.size(u32::MAX)))?;
    Ok(found)
}

/// Whether the term is neither a variable nor a value.
fn is_compound(sig: &Signature, term: &Term) -> bool {
    match &term.node {
        TermNode::Var(_) => false,
        TermNode::App(_, _) => term.bound() > 0 || calls(sig, term),
    }
}
