//! Whether steps prove a goal.

ghost use Rattle.std.specs.Prelude.{◌≡◌, ℕ, List, Some, Contains, slice_get};
ghost use Rattle.clause_core.specs.declared.reports.Claim.{Claim as ClaimOf};
ghost use Rattle.clause_core.specs.Tidied.{goal_clause};
ghost use Rattle.descent.specs.SortedChildren.{IsNode};
ghost use Rattle.acceptance.specs.Blocks.{Proves};
ghost use Rattle.acceptance.specs.Claims.{ProvedBefore};
ghost use Rattle.acceptance.specs.Refusals.{block_tests};
ghost use Rattle.replay_check.specs.Finds.{Finds};
ghost use Rattle.replay_check.specs.Taken.{FindsSteps, StopsAt};
ghost use Rattle.claimed_goals.specs.Tracking.{AreProved};

use crate::answers::Stop;
use crate::last_uses::last_uses;
use crate::letting_go::let_go;
use crate::lines::line_behind;
use acceptance::{Allowed, allowed};
use block_steps::TakenSteps;
use clause_core::{Clause, ReplayWhy, Step, Why, of_goal, within};
use inference_rules::StepError;
use spec_admit::Admitted;
use spec_core::Goal;
use std::alloc::Global;
use term_core::OutOfMemory;
use term_order::TermOrder;

/// Tests whether the steps prove the goal, if the goals of these numbers may be used. The first
/// line of the claim is given; the steps are on the lines after it.
pub(crate) fn check_block<O: TermOrder>(
    alloc: Global,
    admitted: &Admitted<O>,
    goal: &Goal,
    proved: &[u32],
    line: u64,
    steps: &[Step],
) -> Result<(), Stop>
    requires { (k : ℕ) × (slice_get admitted.now.spec.goals k ≡ Some goal.now) }
    ensures { (before : List ClaimOf) → AreProved admitted.now.spec before proved.now →
        Finds (block_tests (O.above admitted.now.order) admitted.now.spec before line
        goal.now.name steps.now)
        (λ done. Proves (O.above admitted.now.order) admitted.now.spec
        (ProvedBefore admitted.now.spec before) (goal_clause goal.now) steps.now) result }
{
    clause_core::one_relation(&admitted.order);
    clause_core::tidying_laws();
    let start = of_goal(alloc, goal)?;
    if !within(&start) {
        return Err(Stop::Refused {
            line,
            why: ReplayWhy::Step(Why::Limit),
        });
    }
    let taken = take_steps(alloc, admitted, proved, start, line, steps)?;
    let nodes = taken.nodes.as_slice();
    if nodes.len() > steps.len() {
        return Err(Stop::Refused {
            line,
            why: ReplayWhy::Pending,
        });
    }
    let links = taken.links.as_slice();
    match allowed(alloc, links)? {
        Allowed::All => Ok(()),
        Allowed::Not { node } => Err(Stop::Refused {
            line: line_behind(line, node as usize)?,
            why: ReplayWhy::NotSmaller,
        }),
    }
}

/// Takes the steps of a block that begins with this clause, each at the node of its number. The
/// clause of a node is let go as soon as no later step needs it.
fn take_steps<O: TermOrder>(
    alloc: Global,
    admitted: &Admitted<O>,
    proved: &[u32],
    start: Clause,
    line: u64,
    steps: &[Step],
) -> Result<TakenSteps, Stop>
    requires { IsNode admitted.now.spec.sig start }
    ensures { FindsSteps (O.above admitted.now.order) admitted.now.spec (Contains proved.now) start
        steps.now line result }
{
    let lasts = last_uses(alloc, steps)?;
    let lasts = lasts.as_slice();
    let mut taken = TakenSteps::new(alloc, start)?;
    for (number, step) in steps.iter().enumerate() {
        match taken.take(alloc, admitted, proved, step) {
            Ok(()) => {}
            Err(error) => return Err(stop_at(line, number, error)),
        }
        let_go(&mut taken, alloc, lasts, number, step);
    }
    Ok(taken)
}

/// Where the tests stop at a step that makes nothing.
fn stop_at(line: u64, step: usize, error: StepError) -> Stop
    ensures { StopsAt line step error result }
{
    match error {
        StepError::Why(why) => match line_behind(line, step) {
            Ok(line) => Stop::Refused {
                line,
                why: ReplayWhy::Step(why),
            },
            Err(OutOfMemory) => Stop::OutOfMemory,
        },
        StepError::OutOfMemory => Stop::OutOfMemory,
    }
}
