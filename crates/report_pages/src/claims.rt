//! Sections and lines: what is shown of a claim.

ghost use Rattle.std.specs.Prelude.{◌≡◌, List, Contains, OnOk, Some, slice_get};
ghost use Rattle.spec_core.specs.WellSorted.{IsWellSorted};
ghost use Rattle.clause_core.specs.Tidied.{goal_clause};
ghost use Rattle.clause_core.specs.declared.reports.Claim.{Claim as ClaimOf};
ghost use Rattle.acceptance.specs.Accepting.{AreNamedValues, IsShown};
ghost use Rattle.acceptance.specs.Blocks.{Proves};
ghost use Rattle.claimed_goals.specs.Tracking.{AreProved};
ghost use Rattle.page_core.specs.Events.{within};
ghost use Rattle.page_core.specs.Pages.{after};
ghost use Rattle.page_core.specs.declared.parts.Part.TheVariants.{Note};
ghost use Rattle.report_pages.specs.Claims.{IsOutcomeShown, IsProvedShown, IsRefutedShown};
ghost use Rattle.report_pages.specs.Claims.{IsSectionShown, heading_events, line_events};
ghost use Rattle.report_pages.specs.Claims.{status as status_of};
ghost use Rattle.report_pages.specs.Lists.{Draws};
ghost use Rattle.report_pages.specs.OpenClaims.{open_events};

use crate::counting::draw_nodes;
use crate::open_claims::draw_open;
use crate::refuting::draw_refuted;
use clause_core::{Budget, Outcome, Step};
use page_core::{Anchor, Page, Part, Style};
use proof_trees::draw_proof;
use proof_words::draw_goal;
use spec_admit::Admitted;
use spec_core::{Goal, Signature, Spec};
use std::alloc::Global;
use term_core::{Name, OutOfMemory, Term};
use term_order::TermOrder;

/// A claim's place: its goal with its number, the goals that the claims before it prove, and the
/// steps of the report.
#[derive(Drop)]
pub(crate) struct ClaimAt<'a> {
    pub(crate) goal: &'a Goal,
    pub(crate) number: u32,
    pub(crate) proved: &'a [u32],
    pub(crate) steps: u32,
}

/// Draws a line of the list of goals.
pub(crate) fn draw_line(
    alloc: Global,
    page: &mut Page,
    sig: &Signature,
    number: u32,
    goal: &Goal,
    outcome: &Outcome,
) -> Result<(), OutOfMemory>
    ensures { OnOk result (page.new ≡ after page.old
        (line_events sig.now number goal.now outcome.now)) }
{
    page.begin(Part::GoalLine)?;
    page.link(Anchor::Goal(number), goal.name.as_bytes())?;
    page.text(Style::Plain, status(outcome))?;
    draw_goal(page, alloc, sig, goal)?;
    page.end(Part::GoalLine)
}

/// How a claim ends, between its goal's name and clause.
fn status(outcome: &Outcome) -> &'static [u8]
    ensures { result.now ≡ status_of outcome.now }
{
    match outcome {
        Outcome::Proved(_) => b" (proved): ",
        Outcome::Refuted { .. } => b" (refuted): ",
        Outcome::Open(_) => b" (open): ",
    }
}

/// Draws the section of a claim.
pub(crate) fn draw_section<O: TermOrder>(
    alloc: Global,
    admitted: &Admitted<O>,
    at: &ClaimAt<'_>,
    outcome: &Outcome,
    page: &mut Page,
) -> Result<(), OutOfMemory>
    requires goal { slice_get admitted.now.spec.goals at.now.number ≡ Some at.now.goal.now }
    requires shown { (before : List ClaimOf) × AreProved admitted.now.spec before at.now.proved.now
        × IsShown (O.above admitted.now.order) admitted.now.spec at.now.steps before
        at.now.goal.now outcome.now }
    ensures { OnOk result ((before : List ClaimOf)
        → AreProved admitted.now.spec before at.now.proved.now → Draws page.old page.new
        (IsSectionShown (O.above admitted.now.order) admitted.now.spec at.now.steps before
        at.now.number at.now.goal.now outcome.now)) }
{
    page.begin(Part::Goal(at.number))?;
    draw_heading(alloc, page, &admitted.spec.sig, at.goal)?;
    draw_outcome(alloc, admitted, at, outcome, page)?;
    page.end(Part::Goal(at.number))
}

fn draw_heading(
    alloc: Global,
    page: &mut Page,
    sig: &Signature,
    goal: &Goal,
) -> Result<(), OutOfMemory>
    ensures { OnOk result (page.new ≡ after page.old (heading_events sig.now goal.now)) }
{
    page.begin(Part::GoalHeading)?;
    page.text(Style::Plain, b"goal ")?;
    page.text(Style::Plain, goal.name.as_bytes())?;
    page.text(Style::Plain, b" : ")?;
    draw_goal(page, alloc, sig, goal)?;
    page.end(Part::GoalHeading)
}

/// Draws what a claim says of its goal.
fn draw_outcome<O: TermOrder>(
    alloc: Global,
    admitted: &Admitted<O>,
    at: &ClaimAt<'_>,
    outcome: &Outcome,
    page: &mut Page,
) -> Result<(), OutOfMemory>
    requires goal { slice_get admitted.now.spec.goals at.now.number ≡ Some at.now.goal.now }
    requires shown { (before : List ClaimOf) × AreProved admitted.now.spec before at.now.proved.now
        × IsShown (O.above admitted.now.order) admitted.now.spec at.now.steps before
        at.now.goal.now outcome.now }
    ensures { OnOk result ((before : List ClaimOf)
        → AreProved admitted.now.spec before at.now.proved.now → Draws page.old page.new
        (IsOutcomeShown (O.above admitted.now.order) admitted.now.spec at.now.steps before
        at.now.number at.now.goal.now outcome.now)) }
{
    match outcome {
        Outcome::Proved(block) => draw_proved(alloc, admitted, at, block.steps.as_slice(), page),
        Outcome::Refuted { values, .. } => {
            draw_refutation(alloc, page, &admitted.spec, at, values.as_slice())
        }
        Outcome::Open(budget) => draw_left_open(page, budget),
    }
}

/// Draws the proof of a goal.
fn draw_proved<O: TermOrder>(
    alloc: Global,
    admitted: &Admitted<O>,
    at: &ClaimAt<'_>,
    steps: &[Step],
    page: &mut Page,
) -> Result<(), OutOfMemory>
    requires goal { slice_get admitted.now.spec.goals at.now.number ≡ Some at.now.goal.now }
    requires proves { Proves (O.above admitted.now.order) admitted.now.spec
        (Contains at.now.proved.now) (goal_clause at.now.goal.now) steps.now }
    ensures { OnOk result ((before : List ClaimOf)
        → AreProved admitted.now.spec before at.now.proved.now → Draws page.old page.new
        (IsProvedShown (O.above admitted.now.order) admitted.now.spec at.now.steps before
        at.now.number at.now.goal.now steps.now)) }
{
    page.begin(Part::Note)?;
    page.text(Style::Plain, b"proved: ")?;
    draw_nodes(page, steps.len())?;
    page.end(Part::Note)?;
    draw_proof(alloc, admitted, at.proved, at.number, steps, page)
}

/// Draws the values under which a goal fails.
fn draw_refutation(
    alloc: Global,
    page: &mut Page,
    spec: &Spec,
    at: &ClaimAt<'_>,
    values: &[(Name, Term)],
) -> Result<(), OutOfMemory>
    requires fine { IsWellSorted spec.now }
    requires goal { slice_get spec.now.goals at.now.number ≡ Some at.now.goal.now }
    requires values { AreNamedValues spec.now at.now.goal.now values.now }
    ensures { OnOk result (Draws page.old page.new
        (IsRefutedShown spec.now at.now.steps at.now.goal.now values.now)) }
{
    page.begin(Part::Note)?;
    page.text(
        Style::Plain,
        b"refuted: the goal fails under the values below",
    )?;
    page.end(Part::Note)?;
    draw_refuted(alloc, page, spec, at.goal, values, at.steps)
}

/// Draws what was tried of a goal that is left open.
fn draw_left_open(page: &mut Page, budget: &Budget) -> Result<(), OutOfMemory>
    ensures { OnOk result (page.new ≡ after page.old (within Note (open_events budget.now))) }
{
    page.begin(Part::Note)?;
    draw_open(page, budget)?;
    page.end(Part::Note)
}
