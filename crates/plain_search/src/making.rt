//! A block, node by node.

ghost use Rattle.std.specs.Prelude.{IfOk};
ghost use Rattle.spec_core.specs.WellSorted.{IsWellSorted, GoalIsSorted};
ghost use Rattle.plain_proof.specs.FirstPlain.{HasPlain};
ghost use Rattle.plain_search.specs.Blocks.{IsPlainBlock};

use crate::candidates::Taken;
use crate::choosing::{made_by, next_step};
use crate::laws::{one_choice, plain_blocks};
use crate::splitting::split_on;
use block_steps::TakenSteps;
use clause_core::{Block, of_goal, one_answer, tidying_laws};
use normalization::Rewriter;
use spec_core::{Goal, Spec};
use std::alloc::Global;
use term_core::{OutOfMemory, Seq, VarId};
use term_order::TermOrder;

/// The block of the goal's plain proof on the variable.
pub(crate) fn block_on<O: TermOrder>(
    alloc: Global,
    spec: &Spec,
    order: &O,
    goal: &Goal,
    var: VarId,
) -> Result<Block, OutOfMemory>
    requires fine { IsWellSorted spec.now }
    requires sorted { GoalIsSorted spec.now.sig goal.now }
    requires plain { HasPlain spec.now goal.now 1000 var.0 }
    ensures { IfOk result (λ block.
        IsPlainBlock (O.above order.now) spec.now goal.now var.0 block.steps) }
{
    plain_blocks(order);
    one_choice(order);
    one_answer(order);
    tidying_laws();
    let rewriter = Rewriter::new(alloc, spec)?;
    let start = of_goal(alloc, goal)?;
    let mut block = TakenSteps::new(alloc, start)?;
    let split = split_on(alloc, spec, goal, var)?;
    let Some(made) = made_by(alloc, spec, order, &block.nodes, 0, &split)? else {
        unreachable!();
    };
    block.add(alloc, made)?;
    let mut steps = Vec::new(alloc);
    steps.push(split)?;
    while steps.len() < block.nodes.len() {
        let node = steps.len() as u32;
        let nodes = &block.nodes;
        let Some(Taken { step, made }) = next_step(alloc, spec, order, &rewriter, nodes, node)?
        else {
            unreachable!();
        };
        block.add(alloc, made)?;
        steps.push(step)?;
    }
    Ok(Block {
        steps: Seq::from_vec(steps),
    })
}
