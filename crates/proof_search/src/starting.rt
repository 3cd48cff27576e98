//! The block of a start, node by node.

ghost use Rattle.std.specs.Prelude.{◌<◌, ◌^◌, IfOk, length};
ghost use Rattle.descent.specs.SortedChildren.{IsNode};
ghost use Rattle.inference_rules.specs.Answers.{clauses_of};
ghost use Rattle.inference_rules.specs.Nodes.{AreNodes};
ghost use Rattle.proof_search.specs.Building.{IsWhole};
ghost use Rattle.proof_search.specs.FallingSides.{KeepsSides, LemmasFall};
ghost use Rattle.proof_search.specs.Settings.{IsSetting};
ghost use Rattle.proof_search.specs.Starting.{IsBlock, IsNext, start_of};

use crate::building::Building;
use crate::choosing::{chosen, covered};
use crate::setting::Setting;
use clause_core::{Clause, Step};
use routine_proof::Move;
use std::alloc::Global;
use term_core::{OutOfMemory, VarId};
use term_order::TermOrder;

/// How a block begins: by a step of the list, or by the cover of a variable.
#[derive(Clone, Copy)]
pub(crate) enum Start {
    NoSplit,
    Split(VarId),
}

/// What is built from a start.
#[derive(Drop)]
pub(crate) enum Built {
    /// The routine block.
    Block(Building),
    /// It has more nodes than are allowed, or there is none. What was built begins with this step,
    /// if it has one.
    Not { first: Option<Step> },
}

/// The routine block of the clause from this start, if it has at most `most` nodes.
pub(crate) fn block<O: TermOrder>(
    alloc: Global,
    order: &O,
    setting: &Setting,
    start: Start,
    clause: Clause,
    most: u32,
) -> Result<Built, OutOfMemory>
    requires setting { IsSetting setting.now }
    requires sides { LemmasFall (O.above order.now) setting.now }
    requires node { IsNode setting.now.spec.now.sig clause }
    ensures { IfOk result (IsBlock (O.above order.now) setting.now.spec.now setting.now.lemmas.now
        (start_of start) clause most) }
{
    clause_core::one_answer(order);
    descent::children_are_sorted(order);
    let mut building = Building::new(alloc, order, clause)?;
    while building.steps.len() < building.block.nodes.len() {
        if building.block.nodes.len() > most as usize {
            return Ok(Built::Not {
                first: building.first_step(),
            });
        }
        match next_move(alloc, order, setting, start, &building)? {
            None => {
                return Ok(Built::Not {
                    first: building.first_step(),
                });
            }
            Some(next) => building.take(alloc, next)?,
        }
    }
    Ok(Built::Block(building))
}

/// The move that is chosen at the next node.
pub(crate) fn next_move<O: TermOrder>(
    alloc: Global,
    order: &O,
    setting: &Setting,
    start: Start,
    building: &Building,
) -> Result<Option<Move>, OutOfMemory>
    requires setting { IsSetting setting.now }
    requires whole { IsWhole building.now }
    requires nodes { AreNodes setting.now.spec.now.sig (clauses_of building.now.block.nodes.items) }
    requires next { length building.now.steps.items < length building.now.block.nodes.items }
    requires few { length building.now.steps.items < 2 ^ 32 }
    requires sides { KeepsSides (O.above order.now) setting.now building.now }
    ensures { IfOk result (IsNext (O.above order.now) setting.now.spec.now setting.now.lemmas.now
        (start_of start) building.now) }
{
    let node = building.steps.len() as u32;
    match start {
        Start::NoSplit => chosen(alloc, order, setting, building, node),
        Start::Split(variable) => {
            if node == 0 {
                covered(alloc, order, setting, building, node, variable)
            } else {
                chosen(alloc, order, setting, building, node)
            }
        }
    }
}
