//! Steps that refer to a node or to a goal.

ghost use Rattle.std.specs.Prelude.{◌≡◌, ◌∷◌, [], OnOk};
ghost use Rattle.page_core.specs.Pages.{after};
ghost use Rattle.proof_words.specs.Lemmas.{goal_named as named_goal};
ghost use Rattle.proof_words.specs.StepEvents.{by_lemma_events, direction as direction_of};
ghost use Rattle.proof_words.specs.StepEvents.{hyp_events};
ghost use Rattle.proof_words.specs.StepEvents.{lemma_step_events, node_event, subsume_events};
ghost use Rattle.proof_words.specs.StepEvents.{use_events};

use crate::instances::draw_instance;
use crate::lemmas::{draw_lemma, goal_named, lemma_names};
use crate::naming::Naming;
use crate::steps::StepAt;
use page_core::{Anchor, Page, Style};
use spec_core::append_decimal;
use std::alloc::Global;
use term_core::{Name, OutOfMemory, Term};

/// Draws a link to a node of the goal's proof.
fn draw_node(page: &mut Page, alloc: Global, goal: u32, node: u32) -> Result<(), OutOfMemory>
    ensures { OnOk result (page.new ≡ after page.old (node_event goal node ∷ [])) }
{
    let to = Anchor::Node { goal, node };
    if node == 0 {
        return page.link(to, b"the goal itself");
    }
    let mut text = Vec::from_slice(alloc, b"node ")?;
    append_decimal(node as usize, &mut text)?;
    page.link(to, &text)
}

pub(crate) fn draw_subsume(
    page: &mut Page,
    at: &StepAt<'_>,
    node: u32,
    terms: &[Term],
) -> Result<(), OutOfMemory>
    ensures { OnOk result (page.new ≡ after page.old
        (subsume_events at.now.spec.now.sig at.now.names.now (node_event at.now.goal node)
        at.now.referred.now terms.now)) }
{
    page.text(Style::Plain, b"induction hypothesis: ")?;
    draw_node(page, at.alloc, at.goal, node)?;
    draw_instance(page, &at.naming(), at.referred, b" with ", terms)
}

pub(crate) fn draw_hyp(
    page: &mut Page,
    at: &StepAt<'_>,
    node: u32,
    left: bool,
    terms: &[Term],
) -> Result<(), OutOfMemory>
    ensures { OnOk result (page.new ≡ after page.old
        (hyp_events at.now.spec.now.sig at.now.names.now (node_event at.now.goal node)
        at.now.referred.now left terms.now)) }
{
    page.text(Style::Plain, b"by ")?;
    draw_node(page, at.alloc, at.goal, node)?;
    page.text(Style::Plain, b" as induction hypothesis")?;
    draw_use(page, &at.naming(), at.referred, left, terms)
}

pub(crate) fn draw_by_lemma(
    page: &mut Page,
    at: &StepAt<'_>,
    name: &[u8],
    terms: &[Term],
) -> Result<(), OutOfMemory>
    ensures { OnOk result (page.new ≡ after page.old
        (by_lemma_events at.now.spec.now.sig at.now.names.now name.now
        (named_goal name.now 0 at.now.spec.now.goals) terms.now)) }
{
    let found = goal_named(at.spec, name)?;
    let referred = lemma_names(at.alloc, found)?;
    page.text(Style::Plain, b"lemma ")?;
    draw_lemma(page, at.alloc, &at.spec.sig, name, found)?;
    draw_instance(page, &at.naming(), &referred, b" with ", terms)
}

pub(crate) fn draw_lemma_step(
    page: &mut Page,
    at: &StepAt<'_>,
    name: &[u8],
    left: bool,
    terms: &[Term],
) -> Result<(), OutOfMemory>
    ensures { OnOk result (page.new ≡ after page.old
        (lemma_step_events at.now.spec.now.sig at.now.names.now name.now
        (named_goal name.now 0 at.now.spec.now.goals) left terms.now)) }
{
    let found = goal_named(at.spec, name)?;
    let referred = lemma_names(at.alloc, found)?;
    page.text(Style::Plain, b"by lemma ")?;
    draw_lemma(page, at.alloc, &at.spec.sig, name, found)?;
    draw_use(page, &at.naming(), &referred, left, terms)
}

/// Draws how an equation of a clause is used: its direction, and the terms for the clause's
/// variables.
fn draw_use(
    page: &mut Page,
    naming: &Naming<'_>,
    referred: &[Name],
    left: bool,
    terms: &[Term],
) -> Result<(), OutOfMemory>
    ensures { OnOk result (page.new ≡ after page.old
        (use_events naming.now.sig.now naming.now.names.now referred.now left terms.now)) }
{
    page.text(Style::Plain, direction(left))?;
    draw_instance(page, naming, referred, b", with ", terms)
}

/// In which direction an equation is used.
pub(crate) fn direction(left: bool) -> &'static [u8]
    ensures { result.now ≡ direction_of left }
{
    if left {
        b", from left to right"
    } else {
        b", from right to left"
    }
}
