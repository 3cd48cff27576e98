//! A function's decision tree, node by node, within its room.

ghost use Rattle.std.specs.Prelude.{◌<◌, ◌≤◌, ℕ, List, IfOk, length};
ghost use Rattle.rule_code.specs.DecisionTrees.{IsTree, AreNodes, AreTrees};
ghost use Rattle.rule_code.specs.Growing.{IsPut, Grow};

use crate::choosing::choose;
use crate::decision_trees::{DecisionTree, Split, TreeNode};
use crate::splitting::{leaf, split_rules};
use spec_core::{Rule, RuleTable, Spec};
use std::alloc::Global;
use term_core::{OutOfMemory, SymId};

/// A tree takes room for this many numbers for each rule beside those at the root. If there is no
/// more of it a node keeps what is left.
const ROOM_PER_RULE: usize = 16;

/// For each symbol a tree of the rules of this function.
pub fn grow_trees(alloc: Global, spec: &Spec) -> Result<Vec<DecisionTree>, OutOfMemory>
    ensures { IfOk result (λ trees. AreTrees spec.now trees.items) }
{
    let table = RuleTable::new(alloc, spec)?;
    let symbols = spec.sig.symbols();
    let mut trees = Vec::with_capacity(alloc, symbols as usize)?;
    for symbol in 0..symbols {
        let places = table.rules_of(SymId(symbol));
        trees.push(DecisionTree::of(alloc, spec.rules.as_slice(), places)?)?;
    }
    Ok(trees)
}

impl DecisionTree {
    /// A tree of the rules with these numbers.
    pub(crate) fn of(
        alloc: Global,
        rules: &[Rule],
        numbers: &[usize],
    ) -> Result<DecisionTree, OutOfMemory>
        ensures { IfOk result (IsTree rules.now numbers.now) }
    {
        let mut all = Vec::new(alloc);
        all.extend_from_slice(numbers)?;
        let mut nodes = Vec::new(alloc);
        nodes.push(leaf(all))?;
        let mut room = numbers.len().saturating_mul(ROOM_PER_RULE);
        let mut at = 0;
        'nodes: while at < nodes.len() {
            room -= grow(alloc, rules, &mut nodes, at, room)?;
            at += 1;
        }
        Ok(DecisionTree { nodes })
    }
}

/// Splits the node at this number, if a place leaves out more and there is room, and gives how
/// much room it takes.
fn grow(
    alloc: Global,
    rules: &[Rule],
    nodes: &mut Vec<TreeNode>,
    at: usize,
    room: usize,
) -> Result<usize, OutOfMemory>
    requires { at < length nodes.old.items }
    ensures within { IfOk result (λ taken. taken ≤ room) }
    ensures grow { IfOk result (Grow nodes.old.items nodes.new.items) }
    ensures nodes { IfOk result (λ _. (numbers : List ℕ)
        → AreNodes rules.now numbers nodes.old.items
        → AreNodes rules.now numbers nodes.new.items) }
{
    let numbers = nodes[at].rules.as_slice();
    let Some(path) = choose(alloc, rules, numbers)? else {
        return Ok(0);
    };
    let (split, mut parts) = split_rules(alloc, rules, numbers, path, nodes.len())?;
    let taken = room_of(&parts).saturating_add(split.cases.len());
    if taken > room {
        return Ok(0);
    }
    nodes.append(&mut parts)?;
    put(nodes, at, split);
    Ok(taken)
}

/// The room that the nodes take: one for each, and one for each of its rules.
fn room_of(nodes: &[TreeNode]) -> usize
    ensures { length nodes.now ≤ result }
{
    let mut room = nodes.len();
    for node in nodes {
        room = room.saturating_add(node.rules.len());
    }
    room
}

/// Puts a split to the node at this number.
fn put(nodes: &mut Vec<TreeNode>, at: usize, split: Split)
    requires { at < length nodes.old.items }
    ensures { IsPut nodes.old.items nodes.new.items at split }
{
    let node = &mut nodes[at];
    node.split = Some(split);
}
