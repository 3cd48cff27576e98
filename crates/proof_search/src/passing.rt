//! The walk from a start: its block is built as far as it goes, past the nodes at which it stops.

ghost use Rattle.std.specs.Prelude.{◌≡◌, ◌<◌, ◌≤◌, IfOk, IsTrue, length};
ghost use Rattle.std.specs.List.{AllByRecursion};
ghost use Rattle.spec_core.specs.WellSorted.{GoalIsSorted};
ghost use Rattle.clause_core.specs.Limits.{IsWithin};
ghost use Rattle.clause_core.specs.Tidied.{goal_clause};
ghost use Rattle.descent.specs.SortedChildren.{IsNode};
ghost use Rattle.proof_search.specs.Building.{IsWhole};
ghost use Rattle.proof_search.specs.FallingSides.{LemmasFall};
ghost use Rattle.proof_search.specs.Settings.{IsSetting};
ghost use Rattle.proof_search.specs.Starting.{start_of};
ghost use Rattle.proof_search.specs.Stuck.{IsStuckFrom};
ghost use Rattle.proof_search.specs.Walks.{IsTurn, IsNextClause};

use crate::building::{Building, is_cover};
use crate::calls::is_repeated;
use crate::limits::Limits;
use crate::setting::Setting;
use crate::starting::{Start, next_move};
use crate::stuck::{Cause, Stuck};
use clause_core::{Clause, Step, copy_equations, of_goal};
use routine_proof::Move;
use spec_core::{Goal, Signature};
use std::alloc::Global;
use term_core::{OutOfMemory, Seq};
use term_order::TermOrder;

/// What a walk from a start meets.
#[derive(Drop)]
pub(crate) struct Met {
    /// The step with which the block begins, if it has one.
    pub first: Option<Step>,
    /// How many nodes were built and not passed over.
    pub built: usize,
    /// Whether some of them weren't looked at.
    pub cut: bool,
    pub stuck: Vec<Stuck>,
}

/// What a walk does at covers.
#[derive(Clone, Copy)]
pub(crate) struct Passing {
    pub limits: Limits,
    /// Passes over covers that others repeat, and lists no others.
    pub repeated_alone: bool,
}

/// What happens at the next node.
#[derive(Drop)]
enum Turn {
    /// The walk ends.
    End,
    /// The node gets no step, for this cause.
    Pass(Cause),
    /// It gets this step.
    Take(Move),
    /// It gets this step, which is a cover, and is stuck all the same.
    Cover(Move),
}

/// The walk over the goal's clause from this start.
pub(crate) fn walk_from<O: TermOrder>(
    alloc: Global,
    order: &O,
    setting: &Setting,
    goal: &Goal,
    start: Start,
    passing: Passing,
) -> Result<Met, OutOfMemory>
    requires setting { IsSetting setting.now }
    requires sides { LemmasFall (O.above order.now) setting.now }
    requires sorted { GoalIsSorted setting.now.spec.now.sig goal.now }
    requires within { IsWithin (goal_clause goal.now) }
    ensures { IfOk result (λ made. AllByRecursion (IsStuckFrom (O.above order.now)
        setting.now.spec.now setting.now.lemmas.now (start_of start) (goal_clause goal.now))
        made.stuck.items) }
{
    clause_core::tidying_laws();
    let clause = of_goal(alloc, goal)?;
    walk(alloc, order, setting, start, clause, passing)
}

/// The same over the clause itself.
fn walk<O: TermOrder>(
    alloc: Global,
    order: &O,
    setting: &Setting,
    start: Start,
    clause: Clause,
    passing: Passing,
) -> Result<Met, OutOfMemory>
    requires setting { IsSetting setting.now }
    requires sides { LemmasFall (O.above order.now) setting.now }
    requires node { IsNode setting.now.spec.now.sig clause }
    ensures { IfOk result (λ made. AllByRecursion (IsStuckFrom (O.above order.now)
        setting.now.spec.now setting.now.lemmas.now (start_of start) clause) made.stuck.items) }
{
    descent::children_are_sorted(order);
    let mut building = Building::new(alloc, order, clause)?;
    let mut stuck = Vec::new(alloc);
    let most = passing.limits.nodes;
    for turns in 0..most {
        if !goes_on(&building, most - turns) {
            return Ok(ending(building, stuck));
        }
        let next = next_move(alloc, order, setting, start, &building)?;
        match turn_at(next, &setting.spec.sig, &building, passing) {
            Turn::End => return Ok(ending(building, stuck)),
            Turn::Pass(cause) => {
                let clause = building.pass();
                stuck.push(Stuck { clause, cause })?;
            }
            Turn::Take(next) => building.take(alloc, next)?,
            Turn::Cover(next) => {
                let clause = next_clause(alloc, &building)?;
                let cause = Cause::Covers;
                stuck.push(Stuck { clause, cause })?;
                building.take(alloc, next)?;
            }
        }
    }
    Ok(ending(building, stuck))
}

fn ending(building: Building, stuck: Vec<Stuck>) -> Met
    ensures { result.stuck ≡ stuck }
{
    let built = building.block.nodes.len();
    let cut = building.steps.len() < built;
    let first = building.first_step();
    Met {
        first,
        built,
        cut,
        stuck,
    }
}

/// Whether some nodes have no step yet, but at most this many.
fn goes_on(building: &Building, most: u32) -> bool
    requires { length building.now.steps.items ≤ length building.now.block.nodes.items }
    ensures { IsTrue result →
        length building.now.steps.items < length building.now.block.nodes.items }
{
    let pending = building.block.nodes.len() - building.steps.len();
    if pending == 0 {
        return false;
    }
    pending <= most as usize
}

/// What happens at the next node, where this move is chosen or none is.
fn turn_at(next: Option<Move>, sig: &Signature, building: &Building, passing: Passing) -> Turn
    requires whole { IsWhole building.now }
    requires next { length building.now.steps.items < length building.now.block.nodes.items }
    ensures { IsTurn building.now next result }
{
    let Passing {
        limits,
        repeated_alone,
    } = passing;
    let node = building.steps.len();
    let Some(next) = next else {
        if node == 0 {
            return Turn::End;
        }
        return Turn::Pass(Cause::NoStep);
    };
    if node == 0 || !is_cover(&next.step) {
        if limits.has_room(&next) {
            return Turn::Take(next);
        }
        return Turn::End;
    }
    let repeats = repeated_alone && is_repeated(sig, building, &next);
    if repeats || !limits.may_cover(building, &next) || !limits.has_room(&next) {
        return Turn::Pass(Cause::Covers);
    }
    if repeated_alone {
        return Turn::Take(next);
    }
    Turn::Cover(next)
}

/// A copy of the next node's clause.
fn next_clause(alloc: Global, building: &Building) -> Result<Clause, OutOfMemory>
    requires { length building.now.steps.items < length building.now.block.nodes.items }
    ensures { IfOk result (IsNextClause building.now) }
{
    let nodes = building.block.nodes.as_slice();
    let node = &nodes[building.steps.len()];
    copied(alloc, &node.clause)
}

fn copied(alloc: Global, clause: &Clause) -> Result<Clause, OutOfMemory>
    ensures { IfOk result (λ made. made ≡ clause.now) }
{
    let premises = copy_equations(alloc, clause.premises.as_slice())?;
    let conclusions = copy_equations(alloc, clause.conclusions.as_slice())?;
    Ok(Clause {
        ctx: Seq::from_vec(clause.ctx.as_slice().to_vec(alloc)?),
        premises: Seq::from_vec(premises),
        conclusions: Seq::from_vec(conclusions),
    })
}
