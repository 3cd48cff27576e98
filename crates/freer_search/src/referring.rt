//! Steps that close a node by an instance of a node above or of a lemma.

use choice_tree::{Choices, Here, Kind, Lemma, closing_lists, reference};
use clause_core::{Clause, Relation, Step};
use fitting_lists::copies;
use std::alloc::Global;
use term_core::OutOfMemory;
use term_order::TermOrder;

/// Offers a step by a node above that closes the node: one whose instance is less, or else one
/// whose instance is the same.
pub(crate) fn offer_subsumption<O: TermOrder>(
    alloc: Global,
    here: &Here<O>,
    choices: &mut Choices,
) -> Result<(), OutOfMemory> {
    offer_subsumption_by(alloc, here, choices, Relation::Less)?;
    offer_subsumption_by(alloc, here, choices, Relation::Same)
}

/// Offers the first one of this relation, if nothing is offered yet. The nodes are tried from node
/// 0 on.
fn offer_subsumption_by<O: TermOrder>(
    alloc: Global,
    here: &Here<O>,
    choices: &mut Choices,
    relation: Relation,
) -> Result<(), OutOfMemory> {
    for number in here.above.as_slice().iter().rev() {
        if !choices.is_empty() {
            return Ok(());
        }
        if !here.has_moved(*number) {
            continue;
        }
        let Some(clause) = here.tree.clause(*number) else {
            continue;
        };
        offer_subsumption_under(alloc, here, choices, relation, *number, clause)?;
    }
    Ok(())
}

/// Offers the first one of this relation by the node with this number, which has this clause.
fn offer_subsumption_under<O: TermOrder>(
    alloc: Global,
    here: &Here<O>,
    choices: &mut Choices,
    relation: Relation,
    number: u32,
    clause: &Clause,
) -> Result<(), OutOfMemory> {
    for terms in closing_lists(alloc, clause, here.clause)? {
        let step = Step::Subsume(number, copies(alloc, terms.as_slice())?);
        let Some(made) = here.made(alloc, &step)? else {
            continue;
        };
        if reference(&made) == Some(relation) {
            return choices.offer(Kind::Forced, step, made);
        }
    }
    Ok(())
}

/// Offers the first step by a lemma that closes the node.
pub(crate) fn offer_lemma_instance<O: TermOrder>(
    alloc: Global,
    here: &Here<O>,
    choices: &mut Choices,
) -> Result<(), OutOfMemory> {
    for lemma in here.setting.lemmas.as_slice() {
        if choices.is_empty() {
            offer_instance_of(alloc, here, choices, lemma)?;
        }
    }
    Ok(())
}

/// Offers the first step by this lemma that closes the node.
fn offer_instance_of<O: TermOrder>(
    alloc: Global,
    here: &Here<O>,
    choices: &mut Choices,
    lemma: &Lemma,
) -> Result<(), OutOfMemory> {
    for terms in closing_lists(alloc, &lemma.clause, here.clause)? {
        let name = lemma.name.copy(alloc)?;
        let step = Step::ByLemma(name, copies(alloc, terms.as_slice())?);
        if let Some(made) = here.made(alloc, &step)? {
            return choices.offer(Kind::Forced, step, made);
        }
    }
    Ok(())
}
