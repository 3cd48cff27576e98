//! `draw_section`: what is shown of a goal.

ghost use Rattle.std.specs.Prelude.{◌≡◌, ◌<◌, ◌++◌, Some, OnOk, length, slice_get};
ghost use Rattle.spec_core.specs.declared.records.Goal.{Goal as GoalOf};
ghost use Rattle.clause_core.specs.declared.reports.Outcome.{Outcome as OutcomeOf};
ghost use Rattle.page_core.specs.Pages.{after};
ghost use Rattle.open_goals.specs.Sections.{Draws, IsGoalShown};
ghost use Rattle.open_goals.specs.Words.{further as further_text, heading_events};
ghost use Rattle.open_goals.specs.Words.{line_events, open_events, open_note, tried_events};

use crate::drawing::draw_starts;
use crate::stops::{OpenStart, open_starts};
use clause_core::{Budget, Outcome};
use page_core::{Page, Part, Style};
use proof_words::draw_goal;
use spec_admit::Admitted;
use spec_core::{Goal, Signature, Spec};
use std::alloc::Global;
use term_core::OutOfMemory;
use term_order::TermOrder;

/// Draws what is shown of the goal of this number, of which this is claimed over these lemmas.
pub fn draw_section<O: TermOrder>(
    alloc: Global,
    admitted: &Admitted<O>,
    number: u32,
    lemmas: &[u32],
    outcome: &Outcome,
    page: &mut Page,
) -> Result<(), OutOfMemory>
    requires in_range { number < length admitted.now.spec.goals }
    ensures { OnOk result ((goal : GoalOf) →
        slice_get admitted.now.spec.goals number ≡ Some goal →
        Draws page.old page.new (IsGoalShown (O.above admitted.now.order) admitted.now.spec
        lemmas.now goal outcome.now)) }
{
    match outcome {
        Outcome::Proved(_) => {
            let goals = admitted.spec.goals.as_slice();
            draw_line(page, &goals[number as usize], b": proved")
        }
        Outcome::Refuted { .. } => {
            let goals = admitted.spec.goals.as_slice();
            draw_line(page, &goals[number as usize], b": refuted")
        }
        Outcome::Open(budget) => draw_open(alloc, admitted, number, lemmas, *budget, page),
    }
}

/// Draws a line on the goal.
fn draw_line(page: &mut Page, goal: &Goal, ending: &[u8]) -> Result<(), OutOfMemory>
    ensures { OnOk result (page.new ≡ after page.old (line_events goal.now ending.now)) }
{
    page.begin(Part::GoalLine)?;
    page.text(Style::Plain, b"goal ")?;
    page.text(Style::Plain, goal.name.as_bytes())?;
    page.text(Style::Plain, ending)?;
    page.end(Part::GoalLine)
}

/// Draws what is shown of a goal that is left open.
fn draw_open<O: TermOrder>(
    alloc: Global,
    admitted: &Admitted<O>,
    number: u32,
    lemmas: &[u32],
    budget: Budget,
    page: &mut Page,
) -> Result<(), OutOfMemory>
    requires in_range { number < length admitted.now.spec.goals }
    ensures { OnOk result ((goal : GoalOf) →
        slice_get admitted.now.spec.goals number ≡ Some goal →
        Draws page.old page.new (IsGoalShown (O.above admitted.now.order) admitted.now.spec
        lemmas.now goal (OutcomeOf.Open budget))) }
{
    let starts = open_starts(alloc, admitted, number, lemmas, budget.nodes)?;
    let spec = &admitted.spec;
    let goals = spec.goals.as_slice();
    draw_open_goal(page, alloc, spec, &goals[number as usize], budget, &starts)
}

/// Draws the goal, how far it was tried, and its starts.
fn draw_open_goal(
    page: &mut Page,
    alloc: Global,
    spec: &Spec,
    goal: &Goal,
    budget: Budget,
    starts: &[OpenStart],
) -> Result<(), OutOfMemory>
    ensures { OnOk result (page.new ≡ after page.old
        (open_events spec.now goal.now budget starts.now)) }
{
    draw_heading(page, alloc, &spec.sig, goal)?;
    draw_note(page, budget)?;
    draw_starts(page, alloc, spec, goal, starts)
}

fn draw_heading(
    page: &mut Page,
    alloc: Global,
    sig: &Signature,
    goal: &Goal,
) -> Result<(), OutOfMemory>
    ensures { OnOk result (page.new ≡ after page.old (heading_events sig.now goal.now)) }
{
    page.begin(Part::GoalHeading)?;
    page.text(Style::Plain, b"goal ")?;
    page.text(Style::Plain, goal.name.as_bytes())?;
    page.text(Style::Plain, b" : ")?;
    draw_goal(page, alloc, sig, goal)?;
    page.end(Part::GoalHeading)
}

/// Draws how far the goal was tried.
fn draw_note(page: &mut Page, budget: Budget) -> Result<(), OutOfMemory>
    ensures { OnOk result (page.new ≡ after page.old (open_note budget)) }
{
    page.begin(Part::Note)?;
    draw_tried(page, budget)?;
    page.text(Style::Plain, further(budget.cut))?;
    page.end(Part::Note)
}

fn draw_tried(page: &mut Page, budget: Budget) -> Result<(), OutOfMemory>
    ensures { OnOk result (page.new ≡ after page.old (tried_events budget)) }
{
    page.text(Style::Plain, b"open after ")?;
    page.number(budget.tried as usize)?;
    page.text(Style::Plain, b" substitutions up to depth ")?;
    page.number(budget.depth as usize)
}

/// Which further substitutions there are.
fn further(cut: bool) -> &'static [u8]
    ensures { result.now ≡ further_text cut }
{
    if cut {
        b"; a greater --tries has more"
    } else {
        b"; a greater --depth has more"
    }
}
