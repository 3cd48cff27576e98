//! The proof of a goal, drawn.

ghost use Rattle.std.specs.Prelude.{◌≡◌, ℕ, List, Some, IfOk, OnOk, Contains, slice_get};
ghost use Rattle.spec_core.specs.declared.records.Goal.{Goal as GoalOf};
ghost use Rattle.clause_core.specs.Tidied.{goal_clause};
ghost use Rattle.acceptance.specs.Blocks.{Proves};
ghost use Rattle.page_core.specs.Events.{Event};
ghost use Rattle.page_core.specs.Pages.{after};
ghost use Rattle.proof_trees.specs.Firsts.{AreFew, firsts_of};
ghost use Rattle.proof_trees.specs.Shown.{IsProofShown};

use crate::blocks::NamedBlock;
use crate::trees::draw_tree;
use block_steps::take_steps;
use clause_core::{Children, Step, of_goal};
use node_names::node_names;
use page_core::Page;
use spec_admit::Admitted;
use std::alloc::Global;
use term_core::OutOfMemory;
use term_order::TermOrder;

/// Draws the proof of the goal with this number, from 0 on, over the goals of the numbers `proved`:
/// each node with its clause and its step, cases nested.
pub fn draw_proof<O: TermOrder>(
    alloc: Global,
    admitted: &Admitted<O>,
    proved: &[u32],
    number: u32,
    steps: &[Step],
    page: &mut Page,
) -> Result<(), OutOfMemory>
    requires { (goal : GoalOf) × (slice_get admitted.now.spec.goals number ≡ Some goal)
        × Proves (O.above admitted.now.order) admitted.now.spec (Contains proved.now)
        (goal_clause goal) steps.now }
    ensures { OnOk result ((goal : GoalOf) → slice_get admitted.now.spec.goals number ≡ Some goal →
        (drawn : List Event) × (page.new ≡ after page.old drawn)
        × IsProofShown (O.above admitted.now.order) admitted.now.spec (Contains proved.now) number
        goal steps.now drawn) }
{
    clause_core::one_relation(&admitted.order);
    clause_core::tidying_laws();
    let spec = &admitted.spec;
    let Some(goal) = spec.goals.as_slice().get(number as usize) else {
        unreachable!()
    };
    let start = of_goal(alloc, goal)?;
    let taken = take_steps(alloc, admitted, proved, start, steps)?;
    let names = node_names(alloc, spec, goal, &taken, steps)?;
    let firsts = first_children(alloc, taken.links.as_slice())?;
    let block = NamedBlock {
        alloc,
        spec,
        goal: number,
        nodes: taken.nodes.as_slice(),
        steps,
        links: taken.links.as_slice(),
        names: &names,
        firsts: &firsts,
    };
    draw_tree(page, &block)
}

/// The number of the first child of each node.
fn first_children(alloc: Global, links: &[Children]) -> Result<Vec<u32>, OutOfMemory>
    requires { AreFew links.now }
    ensures { IfOk result (λ firsts. firsts.items ≡ firsts_of links.now) }
{
    let mut firsts = Vec::with_capacity(alloc, links.len())?;
    let mut next = 1;
    for link in links {
        firsts.push(next)?;
        next += link.clauses.len() as u32;
    }
    Ok(firsts)
}
