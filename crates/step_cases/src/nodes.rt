//! A step at the clause of a goal.
ghost use Rattle.std.specs.Prelude.{◌<◌, IfOk, length};
ghost use Rattle.spec_core.specs.WellSorted.{IsWellSorted};
ghost use Rattle.descent.specs.SortedChildren.{IsNode};
ghost use Rattle.inference_rules.specs.Answers.{clauses_of};
ghost use Rattle.inference_rules.specs.Nodes.{AreNodes};

use crate::answers::is_answer;
use crate::steps::step;
use anyhow::{Result, bail};
use clause_core::{of_goal, tidying_laws, within};
use inference_rules::{Node, children};
use path_order::Lpo;
use spec_core::Spec;
use std::alloc::Global;

/// Nodes that each have the clause of the goal of this name.
#[derive(Clone, Copy)]
pub struct Block<'a> {
    goal: &'a str,
    /// The goals that may be used, with commas between them.
    lemmas: &'a str,
    count: u32,
}

impl<'a> Block<'a> {
    /// One node. These goals may be used.
    pub fn by(goal: &'a str, lemmas: &'a str) -> Block<'a> {
        Block {
            goal,
            lemmas,
            count: 1,
        }
    }

    /// This many nodes. No goal may be used.
    pub fn among(goal: &'a str, count: u32) -> Block<'a> {
        Block {
            goal,
            lemmas: "",
            count,
        }
    }
}

/// Whether the step of these words has this answer at the block's first node.
pub fn holds(
    alloc: Global,
    spec: &Spec,
    block: &Block,
    words: &[&str],
    answer: &[&str],
) -> Result<bool>
    requires fine { IsWellSorted spec.now }
{
    let proved = numbers_of(alloc, spec, block.lemmas)?;
    let nodes = nodes_of(alloc, spec, block)?;
    if nodes.is_empty() {
        bail!("a block has no node");
    }
    let step = step(alloc, &spec.sig, words)?;
    let made = children(alloc, spec, &Lpo::by_number(), &proved, &nodes, 0, &step);
    is_answer(alloc, &spec.sig, made, answer)
}

/// The nodes of the block.
fn nodes_of(alloc: Global, spec: &Spec, block: &Block) -> Result<Vec<Node>>
    requires fine { IsWellSorted spec.now }
    ensures { IfOk result (λ nodes. AreNodes spec.now.sig (clauses_of nodes.items)) }
{
    let mut nodes = Vec::new(alloc);
    for _ in 0..block.count {
        nodes.push(node_of(alloc, spec, block.goal)?)?;
    }
    Ok(nodes)
}

/// The node with the clause of the goal of this name.
fn node_of(alloc: Global, spec: &Spec, goal: &str) -> Result<Node>
    requires fine { IsWellSorted spec.now }
    ensures { IfOk result (λ node. IsNode spec.now.sig node.clause) }
{
    tidying_laws();
    let number = number_of(spec, goal)?;
    let clause = of_goal(alloc, &spec.goals.as_slice()[number as usize])?;
    if !within(&clause) {
        bail!("the goal's clause passes a limit");
    }
    Ok(Node { clause })
}

/// The numbers of the goals of these names.
fn numbers_of(alloc: Global, spec: &Spec, names: &str) -> Result<Vec<u32>>
    requires fine { IsWellSorted spec.now }
{
    let mut numbers = Vec::new(alloc);
    for name in names.split(',') {
        if !name.is_empty() {
            numbers.push(number_of(spec, name)?)?;
        }
    }
    Ok(numbers)
}

/// The number of the goal of this name.
pub fn number_of(spec: &Spec, name: &str) -> Result<u32>
    requires fine { IsWellSorted spec.now }
    ensures { IfOk result (λ number. number < length spec.now.goals) }
{
    for (number, goal) in spec.goals.as_slice().iter().enumerate() {
        if goal.name.as_bytes() == name.as_bytes() {
            return Ok(number as u32);
        }
    }
    bail!("there is no goal of a name")
}
