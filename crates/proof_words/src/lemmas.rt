//! Goals that a step refers to by their names.

ghost use Rattle.std.specs.Prelude.{◌≡◌, IfOk, OnOk, option_map};
ghost use Rattle.page_core.specs.Pages.{after};
ghost use Rattle.proof_words.specs.Lemmas.{goal_named as named_goal, lemma_events};
ghost use Rattle.proof_words.specs.Lemmas.{lemma_names as names_of_lemma};

use crate::goals::{draw_goal, goal_names};
use page_core::{Anchor, Page, Style};
use spec_core::{Goal, Signature, Spec};
use std::alloc::Global;
use term_core::{Name, OutOfMemory};

/// The first goal of this name, after its number. A number past the last one of a link counts as
/// want of memory.
pub(crate) fn goal_named<'a>(
    spec: &'a Spec,
    name: &[u8],
) -> Result<Option<(u32, &'a Goal)>, OutOfMemory>
    ensures { IfOk result (λ found. option_map (λ p. (p.0, p.1.now)) found
        ≡ named_goal name.now 0 spec.now.goals) }
{
    for (place, goal) in spec.goals.as_slice().iter().enumerate() {
        if goal.name.as_bytes() == name {
            return Ok(Some((link_number(place)?, goal)));
        }
    }
    Ok(None)
}

fn link_number(place: usize) -> Result<u32, OutOfMemory>
    ensures { IfOk result (λ number. number ≡ place) }
{
    if place > u32::MAX as usize {
        return Err(OutOfMemory);
    }
    Ok(place as u32)
}

/// Draws a link to the goal that was found, and what it claims. Of a name without a goal it draws
/// the name alone.
pub(crate) fn draw_lemma(
    page: &mut Page,
    alloc: Global,
    sig: &Signature,
    name: &[u8],
    found: Option<(u32, &Goal)>,
) -> Result<(), OutOfMemory>
    ensures { OnOk result (page.new ≡ after page.old
        (lemma_events sig.now name.now (option_map (λ p. (p.0, p.1.now)) found.entry))) }
{
    let Some((number, goal)) = found else {
        return page.text(Style::Plain, name);
    };
    page.link(Anchor::Goal(number), name)?;
    page.text(Style::Plain, b": ")?;
    draw_goal(page, alloc, sig, goal)
}

/// The names of the variables of the clause of the goal that was found.
pub(crate) fn lemma_names(
    alloc: Global,
    found: Option<(u32, &Goal)>,
) -> Result<Vec<Name>, OutOfMemory>
    ensures { IfOk result (λ names.
        names.items ≡ names_of_lemma (option_map (λ p. (p.0, p.1.now)) found.entry)) }
{
    match found {
        None => Ok(Vec::new(alloc)),
        Some((_, goal)) => goal_names(alloc, goal),
    }
}
