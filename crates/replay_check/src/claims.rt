//! The claims of a report in their order, and one claim.

ghost use Rattle.std.specs.Prelude.{◌≡◌, ◌↔◌, ℕ, List, Some, IsTrue, MatchOption, length};
ghost use Rattle.std.specs.Prelude.{slice_get};
ghost use Rattle.spec_core.specs.declared.records.Goal.{Goal as GoalOf};
ghost use Rattle.clause_core.specs.declared.reports.Claim.{Claim as ClaimOf};
ghost use Rattle.acceptance.specs.Accepting.{IsShown, ClaimIsAccepted, IsAccepted};
ghost use Rattle.acceptance.specs.Claims.{IsGoalNamed};
ghost use Rattle.acceptance.specs.Refusals.{outcome_tests, claim_tests, report_tests};
ghost use Rattle.replay_check.specs.Finds.{Finds};
ghost use Rattle.claimed_goals.specs.Tracking.{AreProved, IsNumberOf, Tracks};

use crate::answers::Stop;
use crate::blocks::check_block;
use crate::lines::{line_behind, other_lines};
use crate::values::check_values;
use claimed_goals::ClaimedGoals;
use clause_core::{Claim, Outcome, ReplayWhy, Report};
use spec_admit::Admitted;
use spec_core::Goal;
use std::alloc::Global;
use term_order::TermOrder;

/// The line of the first claim: one names the format, and one has the steps of a verdict.
const FIRST_CLAIM: u64 = 3;

/// Tests the claims of the report in their order.
pub(crate) fn check_claims<O: TermOrder>(
    alloc: Global,
    admitted: &Admitted<O>,
    report: &Report,
) -> Result<(), Stop>
    ensures { Finds (report_tests (O.above admitted.now.order) admitted.now.spec report.now)
        (λ done. IsAccepted (O.above admitted.now.order) admitted.now.spec report.now) result }
{
    clause_core::one_relation(&admitted.order);
    let mut goals = ClaimedGoals::new(alloc, &admitted.spec)?;
    let mut line = FIRST_CLAIM;
    for claim in report.claims.as_slice() {
        let number = check_claim(alloc, admitted, &goals, report.steps, line, claim)?;
        goals.add(number, &claim.outcome)?;
        line = line_behind(line, other_lines(&claim.outcome))?;
    }
    Ok(())
}

/// Tests a claim whose first line is this one, after claims on the goals so far. The number of its
/// goal comes if no test refuses it.
fn check_claim<O: TermOrder>(
    alloc: Global,
    admitted: &Admitted<O>,
    goals: &ClaimedGoals,
    steps: u32,
    line: u64,
    claim: &Claim,
) -> Result<usize, Stop>
    requires { length goals.now.claimed.items ≡ length admitted.now.spec.goals }
    ensures { (before : List ClaimOf) → Tracks admitted.now.spec before goals.now →
        Finds (claim_tests (O.above admitted.now.order) admitted.now.spec before line
        claim.now.goal steps claim.now.outcome)
        (λ number. IsNumberOf admitted.now.spec claim.now.goal number
        × ClaimIsAccepted (O.above admitted.now.order) admitted.now.spec steps before claim.now)
        result }
{
    let Some((number, goal)) = admitted.spec.goal_named(&claim.goal) else {
        return Err(Stop::Refused {
            line,
            why: ReplayWhy::UnknownGoal,
        });
    };
    if goals.is_claimed(number) {
        return Err(Stop::Refused {
            line,
            why: ReplayWhy::GoalTwice,
        });
    }
    let proved = goals.proved.as_slice();
    check_outcome(alloc, admitted, goal, proved, steps, line, &claim.outcome)?;
    Ok(number)
}

/// Tests what a claim on the goal says, given that the goals of these numbers are proved before it.
fn check_outcome<O: TermOrder>(
    alloc: Global,
    admitted: &Admitted<O>,
    goal: &Goal,
    proved: &[u32],
    steps: u32,
    line: u64,
    outcome: &Outcome,
) -> Result<(), Stop>
    requires { (k : ℕ) × (slice_get admitted.now.spec.goals k ≡ Some goal.now) }
    ensures { (before : List ClaimOf) → AreProved admitted.now.spec before proved.now →
        Finds (outcome_tests (O.above admitted.now.order) admitted.now.spec before line
        goal.now.name steps outcome.now)
        (λ done. IsShown (O.above admitted.now.order) admitted.now.spec steps before goal.now
        outcome.now) result }
{
    match outcome {
        Outcome::Proved(block) => {
            check_block(alloc, admitted, goal, proved, line, block.steps.as_slice())
        }
        Outcome::Refuted { values, .. } => {
            check_values(alloc, admitted, goal, values.as_slice(), steps, line)
        }
        Outcome::Open(_) => Ok(()),
    }
}
