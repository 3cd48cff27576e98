//! `report_page`: the title, the list of goals, and the sections.

ghost use Rattle.std.specs.Prelude.{◌≡◌, List, [], IfOk, OnOk, option_map};
ghost use Rattle.std.specs.List.{list_any};
ghost use Rattle.spec_core.specs.WellSorted.{IsWellSorted};
ghost use Rattle.spec_order.specs.Orders.{above_of, order_of};
ghost use Rattle.clause_core.specs.declared.reports.Claim.{Claim as ClaimOf};
ghost use Rattle.acceptance.specs.Accepting.{ClaimsAreAccepted, IsAccepted, IsShown};
ghost use Rattle.claimed_goals.specs.Tracking.{AreProved};
ghost use Rattle.page_core.specs.Pages.{after};
ghost use Rattle.report_pages.specs.Claims.{HasGoal, HaveGoals, IsClaimShown, IsGoalOf};
ghost use Rattle.report_pages.specs.Claims.{IsLineShown};
ghost use Rattle.report_pages.specs.Lists.{Draws, Where};
ghost use Rattle.report_pages.specs.ReportPages.{AreClaimsShown, AreLinesShown, IsGoalListShown};
ghost use Rattle.report_pages.specs.ReportPages.{IsPageShown, IsReportPage};
ghost use Rattle.report_pages.specs.ReportPages.{is_asked as is_asked_for, title_events};

use crate::claims::{ClaimAt, draw_line, draw_section};
use claimed_goals::ClaimedGoals;
use clause_core::{Claim, Report};
use page_core::{Format, Page, Part, Style};
use spec_admit::Admitted;
use spec_core::Spec;
use spec_order::AnyOrder;
use std::alloc::Global;
use term_core::OutOfMemory;
use term_order::TermOrder;

/// The page of an accepted report, or of its claim on the goal of a name.
pub fn report_page(
    alloc: Global,
    admitted: &Admitted<AnyOrder>,
    title: &str,
    goal: Option<&str>,
    report: &Report,
    format: Format,
) -> Result<Vec<u8>, OutOfMemory>
    requires ordered { admitted.now.order ≡ order_of admitted.now.spec }
    requires accepted { IsAccepted (above_of admitted.now.spec) admitted.now.spec report.now }
    ensures { IfOk result (λ text. IsReportPage admitted.now.spec title.now
        (option_map (λ name. name.now) goal.entry) report.now format text.items) }
{
    let mut page = Page::new(alloc, format);
    draw_page(alloc, admitted, title, goal, report, &mut page)?;
    Ok(page.into_bytes())
}

/// Draws the page.
fn draw_page<O: TermOrder>(
    alloc: Global,
    admitted: &Admitted<O>,
    title: &str,
    goal: Option<&str>,
    report: &Report,
    page: &mut Page,
) -> Result<(), OutOfMemory>
    requires { IsAccepted (O.above admitted.now.order) admitted.now.spec report.now }
    ensures { OnOk result (Draws page.old page.new (IsPageShown
        (O.above admitted.now.order) admitted.now.spec title.now
        (option_map (λ name. name.now) goal.entry) report.now)) }
{
    page.begin(Part::Document)?;
    draw_title(page, title)?;
    let claims = report.claims.as_slice();
    draw_list(alloc, &admitted.spec, goal, claims, page)?;
    draw_sections(alloc, admitted, goal, report.steps, claims, page)?;
    page.end(Part::Document)
}

/// Draws the title.
pub fn draw_title(page: &mut Page, title: &str) -> Result<(), OutOfMemory>
    ensures { OnOk result (page.new ≡ after page.old (title_events title.now)) }
{
    page.begin(Part::Heading)?;
    page.text(Style::Plain, title.as_bytes())?;
    page.end(Part::Heading)
}

/// Draws the list of the goals that are asked for.
fn draw_list(
    alloc: Global,
    spec: &Spec,
    asked: Option<&str>,
    claims: &[Claim],
    page: &mut Page,
) -> Result<(), OutOfMemory>
    requires fine { IsWellSorted spec.now }
    requires goals { HaveGoals spec.now claims.now }
    ensures { OnOk result (Draws page.old page.new (IsGoalListShown
        (option_map (λ name. name.now) asked.entry) spec.now claims.now)) }
{
    if !some_asked(asked, claims) {
        return Ok(());
    }
    page.begin(Part::Goals)?;
    draw_lines(alloc, spec, asked, claims, page)?;
    page.end(Part::Goals)
}

/// Whether some claim is on a goal that is asked for.
fn some_asked(asked: Option<&str>, claims: &[Claim]) -> bool
    ensures { result ≡ list_any (is_asked_for (option_map (λ name. name.now) asked.entry))
        claims.now }
{
    claims.iter().any(|claim| is_asked(asked, claim))
}

/// Whether the claim is on a goal that is asked for.
pub fn is_asked(asked: Option<&str>, claim: &Claim) -> bool
    ensures { result ≡ is_asked_for (option_map (λ name. name.now) asked.entry) claim.now }
{
    match asked {
        Some(name) => claim.goal.as_bytes() == name.as_bytes(),
        None => true,
    }
}

/// Draws a line for each goal that is asked for.
fn draw_lines(
    alloc: Global,
    spec: &Spec,
    asked: Option<&str>,
    claims: &[Claim],
    page: &mut Page,
) -> Result<(), OutOfMemory>
    requires fine { IsWellSorted spec.now }
    requires goals { HaveGoals spec.now claims.now }
    ensures { OnOk result (Draws page.old page.new (AreLinesShown
        (option_map (λ name. name.now) asked.entry) spec.now claims.now)) }
{
    for claim in claims {
        draw_line_of(alloc, spec, asked, claim, page)?;
    }
    Ok(())
}

/// Draws the line of a claim, if it is asked for.
fn draw_line_of(
    alloc: Global,
    spec: &Spec,
    asked: Option<&str>,
    claim: &Claim,
    page: &mut Page,
) -> Result<(), OutOfMemory>
    requires fine { IsWellSorted spec.now }
    requires goal { HasGoal spec.now claim.now }
    ensures { OnOk result (Draws page.old page.new (Where
        (is_asked_for (option_map (λ name. name.now) asked.entry) claim.now)
        (IsLineShown spec.now claim.now))) }
{
    if !is_asked(asked, claim) {
        return Ok(());
    }
    let Some((number, goal)) = spec.goal_named(&claim.goal) else {
        unreachable!();
    };
    draw_line(alloc, page, &spec.sig, number as u32, goal, &claim.outcome)
}

/// Draws a section for each claim that is asked for.
fn draw_sections<O: TermOrder>(
    alloc: Global,
    admitted: &Admitted<O>,
    asked: Option<&str>,
    steps: u32,
    claims: &[Claim],
    page: &mut Page,
) -> Result<(), OutOfMemory>
    requires { ClaimsAreAccepted (O.above admitted.now.order) admitted.now.spec steps []
        claims.now }
    ensures { OnOk result (Draws page.old page.new (AreClaimsShown
        (option_map (λ name. name.now) asked.entry) (O.above admitted.now.order)
        admitted.now.spec steps claims.now)) }
{
    let mut goals = ClaimedGoals::new(alloc, &admitted.spec)?;
    for claim in claims {
        let Some((number, goal)) = admitted.spec.goal_named(&claim.goal) else {
            unreachable!();
        };
        let at = ClaimAt {
            goal,
            number: number as u32,
            proved: goals.proved.as_slice(),
            steps,
        };
        draw_claim(alloc, admitted, asked, &at, claim, page)?;
        goals.add(number, &claim.outcome)?;
    }
    Ok(())
}

/// Draws the section of a claim, if it is asked for.
fn draw_claim<O: TermOrder>(
    alloc: Global,
    admitted: &Admitted<O>,
    asked: Option<&str>,
    at: &ClaimAt<'_>,
    claim: &Claim,
    page: &mut Page,
) -> Result<(), OutOfMemory>
    requires goal { IsGoalOf admitted.now.spec claim.now at.now.number at.now.goal.now }
    requires shown { (before : List ClaimOf) × AreProved admitted.now.spec before at.now.proved.now
        × IsShown (O.above admitted.now.order) admitted.now.spec at.now.steps before
        at.now.goal.now claim.now.outcome }
    ensures { OnOk result ((before : List ClaimOf)
        → AreProved admitted.now.spec before at.now.proved.now → Draws page.old page.new (Where
        (is_asked_for (option_map (λ name. name.now) asked.entry) claim.now)
        (IsClaimShown (O.above admitted.now.order) admitted.now.spec at.now.steps before
        claim.now))) }
{
    if !is_asked(asked, claim) {
        return Ok(());
    }
    draw_section(alloc, admitted, at, &claim.outcome, page)
}
