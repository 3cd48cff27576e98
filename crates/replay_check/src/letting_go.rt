//! Clauses that no later step needs.

ghost use Rattle.std.specs.Prelude.{◌<◌, length};
ghost use Rattle.replay_check.specs.Kept.{IsNeededBehind, LetsGo};

use crate::last_uses::referred_node;
use block_links::clause_without_sides;
use block_steps::TakenSteps;
use clause_core::Step;
use inference_rules::Node;
use std::alloc::Global;

/// Lets the clauses go that no step after this one needs: that of its node, and that of the node
/// that it refers to. A clause without sides is left in their place. The step is taken, and for
/// each node the last step that refers to it is given.
pub(crate) fn let_go(
    taken: &mut TakenSteps,
    alloc: Global,
    lasts: &[usize],
    number: usize,
    step: &Step,
)
    requires told { number < length lasts.now }
    requires there { number < length taken.old.nodes.items }
    ensures { LetsGo (IsNeededBehind lasts.now number) taken.old taken.new }
{
    let_node_go(taken, alloc, lasts, number, number);
    if let Some(node) = referred_node(step) {
        let_node_go(taken, alloc, lasts, number, node as usize);
    }
}

/// Lets the clause of a node go if its step isn't after this one and no such step refers to it.
fn let_node_go(taken: &mut TakenSteps, alloc: Global, lasts: &[usize], number: usize, node: usize)
    requires told { number < length lasts.now }
    requires there { number < length taken.old.nodes.items }
    ensures { LetsGo (IsNeededBehind lasts.now number) taken.old taken.new }
{
    if node <= number && lasts[node] <= number {
        let clause = clause_without_sides(alloc);
        taken.nodes[node] = Node { clause };
    }
}
