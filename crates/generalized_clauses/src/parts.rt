//! The subterms of a clause below the roots of its sides, and what they are.

use clause_core::Clause;
use spec_core::Signature;
use std::alloc::Global;
use term_core::{OutOfMemory, Term, TermNode};

/// The occurrences of subterms below the roots of the sides, from the left, those of a term's
/// arguments before the term.
pub(crate) fn parts<'a>(alloc: Global, clause: &'a Clause) -> Result<Vec<&'a Term>, OutOfMemory> {
    let premises = clause.premises.as_slice();
    let mut found = Vec::new(alloc);
    for equation in premises.iter().chain(clause.conclusions.as_slice()) {
        add_below(&equation.left, &mut found)?;
        add_below(&equation.right, &mut found)?;
    }
    Ok(found)
}

/// Adds the occurrences below the root of the term.
#[cycle(add)]
fn add_below<'a>(term: &'a Term, found: &mut Vec<&'a Term>) -> Result<(), OutOfMemory> {
    match &term.node {
        TermNode::Var(_) => Ok(()),
        TermNode::App(_, args) => add_all(args.as_slice(), found),
    }
}

/// Adds the terms, each after those below its root.
#[cycle(add)]
fn add_all<'a>(terms: &'a [Term], found: &mut Vec<&'a Term>) -> Result<(), OutOfMemory> {
    for term in terms {
        add_below(term, found)?;
        found.push(term)?;
    }
    Ok(())
}

/// Whether the term is one of the terms.
pub(crate) fn contains(terms: &[&Term], term: &Term) -> bool {
    terms.iter().any(|other| other.same(term))
}

/// How often the term is among the terms.
pub(crate) fn count(terms: &[&Term], term: &Term) -> usize {
    terms.iter().filter(|other| other.same(term)).count()
}

/// Whether the term is a side of the clause.
pub(crate) fn is_side(clause: &Clause, term: &Term) -> bool {
    let premises = clause.premises.as_slice();
    premises.iter().chain(clause.conclusions.as_slice()).any(|equation| equation.left.same(term)
        || equation.right.same(term))
}

/// Whether a function is in the term.
#[cycle(calls)]
pub(crate) fn calls(sig: &Signature, term: &Term) -> bool {
    match &term.node {
        TermNode::Var(_) => false,
        TermNode::App(sym, args) => {
            sym.0 >= sig.constructors() || some_calls(sig, args.as_slice())
        }
    }
}

#[cycle(calls)]
fn some_calls(sig: &Signature, terms: &[Term]) -> bool {
    for term in terms {
        if calls(sig, term) {
            return true;
        }
    }
    false
}
