//! Generalizations: a variable for a term that occurs again.

use choice_tree::{Choices, Here, Kind};
use clause_core::{Children, Step};
use sample_values::Samples;
use spec_core::Signature;
use std::alloc::Global;
use term_core::{OutOfMemory, Term, TermNode};
use term_order::TermOrder;

/// The most generalizations that are tried at a node.
const MOST: usize = 5;

/// How many random and how many small lists of values a generalization has to survive.
const RANDOM_LISTS: u32 = 40;

const SMALL_LISTS: u32 = 60;

/// Offers a variable for each of the first terms that occur again, if no sample refutes what is
/// made. There is at most one generalization on a path, and none at node 0.
pub(crate) fn offer_generalizations<O: TermOrder>(
    alloc: Global,
    here: &Here<O>,
    choices: &mut Choices,
    samples: &mut Samples,
) -> Result<(), OutOfMemory> {
    let Some(branch) = here.branch(here.node) else {
        return Ok(());
    };
    if here.is_root() || branch.generalizations > 0 {
        return Ok(());
    }
    let before = choices.len();
    for index in 0..here.spots.len() {
        if choices.len() >= before.saturating_add(MOST) {
            return Ok(());
        }
        if is_repeated(here, index) {
            let kind = if choices.len() == before {
                Kind::Generalization
            } else {
                Kind::LaterGeneralization
            };
            offer_generalization(alloc, here, choices, samples, kind, index)?;
        }
    }
    Ok(())
}

/// Offers a variable for the term of the spot of this index.
fn offer_generalization<O: TermOrder>(
    alloc: Global,
    here: &Here<O>,
    choices: &mut Choices,
    samples: &mut Samples,
    kind: Kind,
    index: usize,
) -> Result<(), OutOfMemory> {
    if index >= here.spots.len() {
        return Ok(());
    }
    let step = Step::Generalize(here.spots.term(index).copy(alloc)?);
    let Some(made) = here.made(alloc, &step)? else {
        return Ok(());
    };
    if survives(alloc, samples, &made)? {
        choices.offer(kind, step, made)?;
    }
    Ok(())
}

/// Whether no sample refutes what is made. The random values are the same ones each time.
fn survives(alloc: Global, samples: &mut Samples, made: &Children) -> Result<bool, OutOfMemory> {
    samples.restart();
    for child in made.clauses.as_slice() {
        if samples.refutes(alloc, &child.clause, RANDOM_LISTS, SMALL_LISTS)? {
            return Ok(false);
        }
    }
    Ok(true)
}

/// Whether the term of the spot of this index is compound, and occurs again after it.
fn is_repeated<O: TermOrder>(here: &Here<O>, index: usize) -> bool {
    if index >= here.spots.len() {
        return false;
    }
    let term = here.spots.term(index);
    if !is_compound(&here.setting.spec.sig, term) {
        return false;
    }
    for later in 0..here.spots.len() {
        if later > index && here.spots.term(later).same(term) {
            return true;
        }
    }
    false
}

/// Whether the term is a call, or a constructor with arguments.
fn is_compound(sig: &Signature, term: &Term) -> bool {
    match &term.node {
        TermNode::Var(_) => false,
        TermNode::App(sym, terms) => sym.0 >= sig.constructors() || !terms.is_empty(),
    }
}
