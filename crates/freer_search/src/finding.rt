//! `freer`: a proof of a goal that a freer search finds.

ghost use Rattle.std.specs.Prelude.{◌≡◌, ◌<◌, ℕ, Some, IfOk, length, slice_get};
ghost use Rattle.spec_core.specs.declared.records.Goal.{Goal as GoalOf};
ghost use Rattle.spec_core.specs.WellSorted.{IsWellSorted};
ghost use Rattle.descent.specs.SortedChildren.{IsNode};
ghost use Rattle.clause_core.specs.Tidied.{goal_clause};
ghost use Rattle.clause_core.specs.Limits.{IsWithin};
ghost use Rattle.proof_search.specs.Guided.{IsAcceptedAfter};
ghost use Rattle.freer_search.specs.Found.{IsFound};

use crate::bounds::FreerBounds;
use crate::checking::checked;
use crate::ordering::steps_of;
use crate::searching::{Search, Turn};
use choice_tree::Setting;
use clause_core::{Clause, Step, of_goal, tidying_laws, within};
use proof_search::Guided;
use routine_proof::proves_behind_claims;
use spec_admit::Admitted;
use spec_core::{Goal, Spec};
use std::alloc::Global;
use term_core::OutOfMemory;
use term_order::TermOrder;

/// The most turns that a search takes for a node.
const TURNS: u32 = 100;

/// A proof of the goal of this number over the goals of the other numbers as lemmas, if a search
/// within the bounds finds one. Unfinished says nothing.
pub fn freer<O: TermOrder>(
    alloc: Global,
    admitted: &Admitted<O>,
    goal: u32,
    lemmas: &[u32],
    bounds: FreerBounds,
) -> Result<Guided, OutOfMemory>
    requires in_range { goal < length admitted.now.spec.goals }
    ensures proof { IfOk result (λ found. (it : GoalOf) →
        slice_get admitted.now.spec.goals goal ≡ Some it →
        IsFound (O.above admitted.now.order) admitted.now.spec lemmas.now it bounds.nodes found) }
    ensures accepted { IfOk result (λ found. (it : GoalOf) →
        slice_get admitted.now.spec.goals goal ≡ Some it →
        IsAcceptedAfter (O.above admitted.now.order) admitted.now.spec lemmas.now it found) }
{
    proves_behind_claims(&admitted.order);
    let goals = admitted.spec.goals.as_slice();
    let goal = &goals[goal as usize];
    let steps = found_steps(alloc, admitted, goal, lemmas, bounds)?;
    checked(alloc, admitted, goal, lemmas, steps, bounds.nodes)
}

/// The steps that a search finds with the least bound of the cost, or none.
fn found_steps<O: TermOrder>(
    alloc: Global,
    admitted: &Admitted<O>,
    goal: &Goal,
    lemmas: &[u32],
    bounds: FreerBounds,
) -> Result<Vec<Step>, OutOfMemory>
    requires { (k : ℕ) × (slice_get admitted.now.spec.goals k ≡ Some goal.now) }
{
    tidying_laws();
    let Admitted { spec, order } = admitted;
    let setting = Setting::new(alloc, spec, order, lemmas)?;
    for cost in 0..bounds.cost.saturating_add(1) {
        let clause = of_goal(alloc, goal)?;
        if !within(&clause) {
            break;
        }
        if let Some(steps) = found_within(alloc, &setting, clause, bounds.nodes, cost)? {
            return Ok(steps);
        }
    }
    Ok(Vec::new(alloc))
}

/// The steps that a search finds whose choices cost at most this much along a path.
fn found_within<O: TermOrder>(
    alloc: Global,
    setting: &Setting<O>,
    clause: Clause,
    nodes: u32,
    cost: u32,
) -> Result<Option<Vec<Step>>, OutOfMemory>
    requires fine { IsWellSorted setting.now.spec.now }
    requires node { IsNode setting.now.spec.now.sig clause }
{
    let mut search = Search::new(alloc, setting, clause, nodes, cost)?;
    for _ in 0..nodes.saturating_mul(TURNS) {
        match search.turn(alloc)? {
            Turn::GoesOn => {}
            Turn::Failed => return Ok(None),
            Turn::Proved => return steps_of(alloc, search.branches()),
        }
    }
    Ok(None)
}
