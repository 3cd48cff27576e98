//! All choices at a node, in the order in which they are tried.

use crate::covering::offer_covers;
use crate::forced::{offer_parts, offer_plain};
use crate::generalizing::offer_generalizations;
use crate::referring::{offer_lemma_instance, offer_subsumption};
use crate::rewriting::{offer_context, offer_early_hypotheses, offer_hypotheses, offer_lemmas};
use crate::ruling::{offer_cases, offer_rule};
use choice_tree::{Choice, Choices, Here};
use sample_values::Samples;
use std::alloc::Global;
use term_core::OutOfMemory;
use term_order::TermOrder;

/// The choices at the node, of which the last one is to be tried first. There is only one if it
/// closes the node or makes it plainer; beside a step by a rule hypotheses are used if more may
/// be spent.
pub(crate) fn choices_at<O: TermOrder>(
    alloc: Global,
    here: &Here<O>,
    samples: &mut Samples,
    allowance: u32,
) -> Result<Vec<Choice>, OutOfMemory> {
    let mut choices = Choices::new(alloc, here.is_root());
    offer_plain(alloc, here, &mut choices)?;
    if !choices.is_empty() {
        return Ok(choices.into_stack());
    }
    offer_rule(alloc, here, &mut choices)?;
    if !choices.is_empty() {
        if allowance > 0 && !here.is_root() {
            offer_early_hypotheses(alloc, here, &mut choices)?;
        }
        return Ok(choices.into_stack());
    }
    offer_parts(alloc, here, &mut choices)?;
    offer_closing(alloc, here, &mut choices)?;
    if choices.is_empty() && !here.is_again() {
        offer_free(alloc, here, &mut choices)?;
        if allowance > 0 {
            offer_generalizations(alloc, here, &mut choices, samples)?;
        }
    }
    Ok(choices.into_stack())
}

/// Offers a step that closes the node by a node above or a lemma, or by which a premise makes it
/// plainer, if nothing is offered yet.
fn offer_closing<O: TermOrder>(
    alloc: Global,
    here: &Here<O>,
    choices: &mut Choices,
) -> Result<(), OutOfMemory> {
    if !choices.is_empty() {
        return Ok(());
    }
    offer_subsumption(alloc, here, choices)?;
    if !choices.is_empty() {
        return Ok(());
    }
    offer_lemma_instance(alloc, here, choices)?;
    if !choices.is_empty() || here.is_again() {
        return Ok(());
    }
    offer_context(alloc, here, choices)
}

/// Offers what is a choice.
fn offer_free<O: TermOrder>(
    alloc: Global,
    here: &Here<O>,
    choices: &mut Choices,
) -> Result<(), OutOfMemory> {
    offer_hypotheses(alloc, here, choices)?;
    offer_lemmas(alloc, here, choices)?;
    offer_cases(alloc, here, choices)?;
    offer_covers(alloc, here, choices)
}
