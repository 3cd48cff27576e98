//! `node_names`: node by node, each by its parent.

ghost use Rattle.std.specs.Prelude.{◌≡◌, All, Contains, IfOk, IfSome};
ghost use Rattle.inference_rules.specs.Answers.{clauses_of};
ghost use Rattle.node_names.specs.declared.names.NodeNames.{NodeNames as NodeNamesOf};
ghost use Rattle.node_names.specs.Names.{AreNames};
ghost use Rattle.node_names.specs.Nodes.{AreNodeNames, NamesNode};
ghost use Rattle.node_names.specs.Settings.{HasStems};

use crate::children::{Child, child_names, names_by_sorts, root_names};
use crate::names::NodeNames;
use crate::settings::Setting;
use crate::stems::stems;
use block_steps::TakenSteps;
use clause_core::{Children, Clause, Step};
use spec_core::{Goal, Spec};
use std::alloc::Global;
use term_core::{OutOfMemory, front};

/// Where a node comes from: the number of its parent, and its place among the children.
#[derive(Clone, Copy)]
struct Origin {
    parent: usize,
    index: usize,
}

/// The names at each node of a block of the goal that has these steps. A variable keeps its name
/// from node to node. One that a step brings has the name of the variable that is split, with
/// primes, if it is of the same sort, and else that of a variable of its sort.
pub fn node_names(
    alloc: Global,
    spec: &Spec,
    goal: &Goal,
    taken: &TakenSteps,
    steps: &[Step],
) -> Result<Vec<NodeNames>, OutOfMemory>
    ensures { IfOk result (λ made.
        AreNodeNames spec.now goal.now (clauses_of taken.now.nodes.items) made.items) }
{
    let setting = Setting {
        spec,
        goal,
        nodes: taken.nodes.as_slice(),
        steps,
        stems: stems(alloc, spec, goal)?,
    };
    let origins = origins(alloc, taken.links.as_slice())?;
    let mut made = Vec::new(alloc);
    let Some((first, others)) = front(taken.nodes.as_slice()) else {
        return Ok(made);
    };
    made.push(root_names(alloc, &setting, &first.clause)?)?;
    for (place, node) in others.iter().enumerate() {
        let origin = origins.get(place).copied();
        let names = other_names(alloc, &setting, &made, origin, &node.clause)?;
        made.push(names)?;
    }
    Ok(made)
}

/// The names of a node other than the first one, by those of the nodes before it.
fn other_names(
    alloc: Global,
    setting: &Setting,
    before: &[NodeNames],
    origin: Option<Origin>,
    clause: &Clause,
) -> Result<NodeNames, OutOfMemory>
    requires stems { HasStems setting.now }
    requires names { All (λ (names : NodeNamesOf).
        AreNames setting.now.spec.now setting.now.goal.now names.variables) before.now }
    ensures { IfOk result
        (NamesNode setting.now.spec.now setting.now.goal.now clause.now) }
{
    match child_of(setting, before, origin, clause) {
        Some(child) => child_names(alloc, setting, &child),
        None => names_by_sorts(alloc, setting, clause),
    }
}

/// The child with this clause, where its parent has a step and names.
fn child_of<'a>(
    setting: &Setting<'a>,
    before: &'a [NodeNames],
    origin: Option<Origin>,
    clause: &'a Clause,
) -> Option<Child<'a>>
    requires { All (λ (names : NodeNamesOf).
        AreNames setting.now.spec.now setting.now.goal.now names.variables) before.now }
    ensures clause { IfSome result (λ child. child.clause.now ≡ clause.now) }
    ensures names { IfSome result (λ child.
        AreNames setting.now.spec.now setting.now.goal.now child.names.now) }
{
    let origin = origin?;
    let step = setting.steps.get(origin.parent)?;
    let parent = setting.nodes.get(origin.parent)?;
    let names = names_at(before, origin.parent)?;
    Some(Child {
        clause,
        step,
        index: origin.index,
        parent: &parent.clause,
        names: names.variables.as_slice(),
    })
}

/// The names at the node of this number.
fn names_at(before: &[NodeNames], number: usize) -> Option<&NodeNames>
    ensures { IfSome result (λ names. Contains before.now names.now) }
{
    before.get(number)
}

/// The origins of the nodes after the first one, in their order.
fn origins(alloc: Global, links: &[Children]) -> Result<Vec<Origin>, OutOfMemory> {
    let mut made = Vec::new(alloc);
    for (parent, link) in links.iter().enumerate() {
        add_origins(&mut made, parent, link.clauses.len())?;
    }
    Ok(made)
}

/// Adds those of as many children.
fn add_origins(made: &mut Vec<Origin>, parent: usize, count: usize) -> Result<(), OutOfMemory> {
    for index in 0..count {
        made.push(Origin { parent, index })?;
    }
    Ok(())
}
