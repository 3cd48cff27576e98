//! Sections: what is shown of the goals that claims leave open.

ghost use Rattle.std.specs.Prelude.{◌≡◌, List, OnOk, option_map};
ghost use Rattle.clause_core.specs.declared.reports.Claim.{Claim as ClaimOf};
ghost use Rattle.claimed_goals.specs.Tracking.{AreProved};
ghost use Rattle.report_pages.specs.Claims.{HasGoal, HaveGoals, IsGoalOf};
ghost use Rattle.report_pages.specs.Lists.{Draws, Where};
ghost use Rattle.open_pages.specs.Sections.{AreSections, IsSection, is_open as is_open_claim};
ghost use Rattle.open_pages.specs.Sections.{is_shown as is_claim_shown};

use crate::deeper::draw_deeper;
use crate::freer::draw_freer;
use claimed_goals::ClaimedGoals;
use clause_core::{Claim, Outcome};
use command_line::SearchBounds;
use open_goals::draw_section;
use page_core::Page;
use report_pages::is_asked;
use spec_admit::Admitted;
use spec_core::{Goal, Spec};
use std::alloc::Global;
use term_core::OutOfMemory;
use term_order::TermOrder;

/// A claim's place: its goal with its number, and the goals that the claims before it prove.
#[derive(Drop)]
struct ClaimAt<'a> {
    claim: &'a Claim,
    number: u32,
    goal: &'a Goal,
    lemmas: &'a [u32],
    search: SearchBounds,
}

/// Draws a section for each claim that leaves a goal open that is asked for.
pub(crate) fn draw_sections<O: TermOrder>(
    alloc: Global,
    admitted: &Admitted<O>,
    asked: Option<&str>,
    search: SearchBounds,
    claims: &[Claim],
    page: &mut Page,
) -> Result<(), OutOfMemory>
    requires { HaveGoals admitted.now.spec claims.now }
    ensures { OnOk result (Draws page.old page.new (AreSections
        (O.above admitted.now.order) admitted.now.spec search
        (option_map (λ name. name.now) asked.entry) claims.now)) }
{
    let mut goals = ClaimedGoals::new(alloc, &admitted.spec)?;
    for claim in claims {
        let (number, goal) = goal_of(&admitted.spec, claim);
        let at = ClaimAt {
            claim,
            number: number as u32,
            goal,
            lemmas: goals.proved.as_slice(),
            search,
        };
        draw_claim(alloc, admitted, asked, &at, page)?;
        goals.add(number, &claim.outcome)?;
    }
    Ok(())
}

/// The claim's goal, after its number.
fn goal_of<'a>(spec: &'a Spec, claim: &Claim) -> (usize, &'a Goal)
    requires { HasGoal spec.now claim.now }
    ensures { IsGoalOf spec.now claim.now result.0 result.1.now }
{
    let Some(found) = spec.goal_named(&claim.goal) else {
        unreachable!();
    };
    found
}

/// Draws the section of a claim's goal, if the claim leaves it open and it is asked for.
fn draw_claim<O: TermOrder>(
    alloc: Global,
    admitted: &Admitted<O>,
    asked: Option<&str>,
    at: &ClaimAt<'_>,
    page: &mut Page,
) -> Result<(), OutOfMemory>
    requires { IsGoalOf admitted.now.spec at.now.claim.now at.now.number at.now.goal.now }
    ensures { OnOk result ((before : List ClaimOf)
        → AreProved admitted.now.spec before at.now.lemmas.now → Draws page.old page.new (Where
        (is_claim_shown (option_map (λ name. name.now) asked.entry) at.now.claim.now)
        (IsSection (O.above admitted.now.order) admitted.now.spec at.now.search before
        at.now.claim.now))) }
{
    if !is_shown(asked, at.claim) {
        return Ok(());
    }
    draw_open(alloc, admitted, at, page)
}

/// Draws the section of a claim's goal, and what deeper and freer searches find.
fn draw_open<O: TermOrder>(
    alloc: Global,
    admitted: &Admitted<O>,
    at: &ClaimAt<'_>,
    page: &mut Page,
) -> Result<(), OutOfMemory>
    requires { IsGoalOf admitted.now.spec at.now.claim.now at.now.number at.now.goal.now }
    ensures { OnOk result ((before : List ClaimOf)
        → AreProved admitted.now.spec before at.now.lemmas.now → Draws page.old page.new
        (IsSection (O.above admitted.now.order) admitted.now.spec at.now.search before
        at.now.claim.now)) }
{
    let outcome = &at.claim.outcome;
    draw_section(alloc, admitted, at.number, at.lemmas, outcome, page)?;
    draw_deeper(alloc, admitted, at.goal, at.search, page)?;
    draw_freer(alloc, admitted, at.number, at.lemmas, page)
}

/// Whether the claim leaves a goal open that is asked for.
pub(crate) fn is_shown(asked: Option<&str>, claim: &Claim) -> bool
    ensures { result ≡ is_claim_shown (option_map (λ name. name.now) asked.entry) claim.now }
{
    is_asked(asked, claim) && is_open(&claim.outcome)
}

fn is_open(outcome: &Outcome) -> bool
    ensures { result ≡ is_open_claim outcome.now }
{
    match outcome {
        Outcome::Open(_) => true,
        Outcome::Proved(_) | Outcome::Refuted { .. } => false,
    }
}
