//! Tests of values.
ghost use Rattle.std.specs.Prelude.{◌≡◌, ◌↔◌, IsTrue};
ghost use Rattle.term_core.specs.Tree.{trees_of};
ghost use Rattle.spec_core.specs.Sorts.{IsValue, IsBuilt, AreBuilt};
ghost use Rattle.spec_core.specs.Truth.{AreValuesOf};
ghost use Rattle.spec_core.specs.WellSorted.{sorts_of};

use spec_core::{Signature, Spec, VarInfo};
use term_core::{SortId, Term, TermNode, front};

/// Whether the terms are values of the variables, one for each.
pub fn are_values(spec: &Spec, vars: &[VarInfo], terms: &[Term]) -> bool
    ensures { IsTrue result → AreValuesOf spec.now (sorts_of vars.now) terms.now }
{
    match (front(vars), front(terms)) {
        (None, None) => true,
        (Some((var, vars)), Some((term, terms))) => {
            is_value(&spec.sig, var.sort, term) && are_values(spec, vars, terms)
        }
        _ => false,
    }
}

/// Whether the term is a value of the sort.
fn is_value(sig: &Signature, sort: SortId, term: &Term) -> bool
    ensures { IsTrue result → IsValue sig.now sort term.now }
{
    match sig.sort_of(&[], term) {
        Some(found) => found.0 == sort.0 && is_built(sig, term),
        None => false,
    }
}

/// Whether the term has constructors alone.
#[cycle(built)]
fn is_built(sig: &Signature, term: &Term) -> bool
    ensures { IsTrue result → IsBuilt sig.now term.now }
{
    match &term.node {
        TermNode::Var(_) => false,
        TermNode::App(sym, args) => sym.0 < sig.constructors() && are_built(sig, args.as_slice()),
    }
}

/// Whether each of the terms has constructors alone.
#[cycle(built)]
fn are_built(sig: &Signature, terms: &[Term]) -> bool
    ensures { IsTrue result → AreBuilt sig.now (trees_of terms.now) }
{
    match front(terms) {
        None => true,
        Some((term, terms)) => is_built(sig, term) && are_built(sig, terms),
    }
}
