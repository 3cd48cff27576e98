//! The proof from a start whose block keeps limits.

ghost use Rattle.std.specs.Prelude.{◌<◌, IfOk, length};
ghost use Rattle.spec_core.specs.WellSorted.{GoalIsSorted};
ghost use Rattle.clause_core.specs.Limits.{IsWithin};
ghost use Rattle.clause_core.specs.Tidied.{goal_clause};
ghost use Rattle.descent.specs.SortedChildren.{IsNode};
ghost use Rattle.inference_rules.specs.Answers.{clauses_of};
ghost use Rattle.inference_rules.specs.Nodes.{AreNodes};
ghost use Rattle.proof_search.specs.Bounding.{IsNextWithin, IsBlockWithin, IsTriedWithin};
ghost use Rattle.proof_search.specs.Building.{IsWhole};
ghost use Rattle.proof_search.specs.FallingSides.{KeepsSides, LemmasFall};
ghost use Rattle.proof_search.specs.Settings.{IsSetting};
ghost use Rattle.proof_search.specs.Starting.{start_of};

use crate::building::Building;
use crate::limits::Limits;
use crate::proving::{Tried, short_block};
use crate::setting::Setting;
use crate::starting::{Built, Start, next_move};
use acceptance::{Allowed, allowed};
use clause_core::{Block, Clause, of_goal};
use routine_proof::Move;
use spec_core::Goal;
use std::alloc::Global;
use term_core::{OutOfMemory, Seq};
use term_order::TermOrder;

/// The routine proof of the goal from this start, if its block keeps the limits.
pub(crate) fn bounded_proof<O: TermOrder>(
    alloc: Global,
    order: &O,
    setting: &Setting,
    goal: &Goal,
    start: Start,
    limits: Limits,
) -> Result<Tried, OutOfMemory>
    requires setting { IsSetting setting.now }
    requires sides { LemmasFall (O.above order.now) setting.now }
    requires sorted { GoalIsSorted setting.now.spec.now.sig goal.now }
    requires within { IsWithin (goal_clause goal.now) }
    ensures { IfOk result (IsTriedWithin (O.above order.now) setting.now.spec.now
        setting.now.lemmas.now goal.now limits.nodes (start_of start)) }
{
    clause_core::one_answer(order);
    clause_core::one_relation(order);
    clause_core::tidying_laws();
    let clause = of_goal(alloc, goal)?;
    let building = match bounded_block(alloc, order, setting, start, clause, limits)? {
        Built::Not { first } => return Ok(Tried::Not { first }),
        Built::Block(building) => building,
    };
    match allowed(alloc, &building.block.links)? {
        Allowed::Not { .. } => Ok(Tried::Not {
            first: building.first_step(),
        }),
        Allowed::All => {
            let block = Block {
                steps: Seq::from_vec(building.steps),
            };
            short_block(alloc, setting.spec, goal, block)
        }
    }
}

/// The routine block of the clause from this start, if it keeps the limits.
fn bounded_block<O: TermOrder>(
    alloc: Global,
    order: &O,
    setting: &Setting,
    start: Start,
    clause: Clause,
    limits: Limits,
) -> Result<Built, OutOfMemory>
    requires setting { IsSetting setting.now }
    requires sides { LemmasFall (O.above order.now) setting.now }
    requires node { IsNode setting.now.spec.now.sig clause }
    ensures { IfOk result (IsBlockWithin (O.above order.now) setting.now.spec.now
        setting.now.lemmas.now (start_of start) clause limits.nodes) }
{
    clause_core::one_answer(order);
    descent::children_are_sorted(order);
    let mut building = Building::new(alloc, order, clause)?;
    while building.steps.len() < building.block.nodes.len() {
        match bounded_move(alloc, order, setting, start, &building, limits)? {
            None => {
                let first = building.first_step();
                return Ok(Built::Not { first });
            }
            Some(next) => building.take(alloc, next)?,
        }
    }
    Ok(Built::Block(building))
}

/// The move that is chosen at the next node, if it and the nodes so far keep the limits.
fn bounded_move<O: TermOrder>(
    alloc: Global,
    order: &O,
    setting: &Setting,
    start: Start,
    building: &Building,
    limits: Limits,
) -> Result<Option<Move>, OutOfMemory>
    requires setting { IsSetting setting.now }
    requires whole { IsWhole building.now }
    requires nodes { AreNodes setting.now.spec.now.sig (clauses_of building.now.block.nodes.items) }
    requires next { length building.now.steps.items < length building.now.block.nodes.items }
    requires sides { KeepsSides (O.above order.now) setting.now building.now }
    ensures { IfOk result (IsNextWithin (O.above order.now) setting.now.spec.now
        setting.now.lemmas.now (start_of start) limits.nodes building.now) }
{
    if building.block.nodes.len() > limits.nodes as usize {
        return Ok(None);
    }
    let Some(next) = next_move(alloc, order, setting, start, building)? else {
        return Ok(None);
    };
    if !limits.allow(building, &next) {
        return Ok(None);
    }
    Ok(Some(next))
}
