//! The steps of a tree in the order of a block.

use block_steps::copy_step;
use choice_tree::Branch;
use clause_core::Step;
use std::alloc::Global;
use term_core::OutOfMemory;

/// The steps of the tree in the order of a block's nodes, where children come after all nodes
/// before them. There are none if some node has no step.
pub(crate) fn steps_of(
    alloc: Global,
    branches: &[Branch],
) -> Result<Option<Vec<Step>>, OutOfMemory> {
    let order = block_order(alloc, branches)?;
    let mut numbers = vec![in alloc; 0u32; branches.len()]?;
    let mut count: u32 = 0;
    for node in order.as_slice() {
        if let Some(number) = numbers.get_mut(*node as usize) {
            *number = count;
        }
        count = count.saturating_add(1);
    }
    written(alloc, branches, order.as_slice(), numbers.as_slice())
}

/// The nodes of the tree in the order in which a block has them.
fn block_order(alloc: Global, branches: &[Branch]) -> Result<Vec<u32>, OutOfMemory> {
    let mut order = Vec::new(alloc);
    order.push(0u32)?;
    for place in 0..branches.len() {
        let Some(node) = order.as_slice().get(place) else {
            break;
        };
        if let Some(branch) = branches.get(*node as usize) {
            push_all(&mut order, branch.first, branch.end)?;
        }
    }
    Ok(order)
}

fn push_all(order: &mut Vec<u32>, first: u32, end: u32) -> Result<(), OutOfMemory> {
    for child in first..end {
        order.push(child)?;
    }
    Ok(())
}

/// The steps of the nodes in this order, where nodes are referred to by these numbers.
fn written(
    alloc: Global,
    branches: &[Branch],
    order: &[u32],
    numbers: &[u32],
) -> Result<Option<Vec<Step>>, OutOfMemory> {
    let mut steps = Vec::new(alloc);
    for node in order {
        let Some(branch) = branches.get(*node as usize) else {
            return Ok(None);
        };
        let Some(step) = &branch.step else {
            return Ok(None);
        };
        steps.push(renumbered(alloc, step, numbers)?)?;
    }
    Ok(Some(steps))
}

/// A copy of the step that refers to nodes by these numbers.
fn renumbered(alloc: Global, step: &Step, numbers: &[u32]) -> Result<Step, OutOfMemory> {
    Ok(match copy_step(alloc, step)? {
        Step::Subsume(node, terms) => Step::Subsume(number_of(numbers, node), terms),
        Step::Hyp(node, terms, place, left) => {
            Step::Hyp(number_of(numbers, node), terms, place, left)
        }
        other => other,
    })
}

fn number_of(numbers: &[u32], node: u32) -> u32 {
    match numbers.get(node as usize) {
        Some(number) => *number,
        None => 0,
    }
}
