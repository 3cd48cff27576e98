//! A block that is being built, and the ancestors of a node.

ghost use Rattle.std.specs.Prelude.{◌≡◌, ◌<◌, ◌^◌, Some, IfOk, OnOk, length, slice_get};
ghost use Rattle.routine_proof.specs.Ways.{Node as WayNode, ancestors as ancestors_of};
ghost use Rattle.routine_proof.specs.Ways.{is_cover as is_cover_of};
ghost use Rattle.proof_search.specs.Building.{IsWhole, nodes_in, Begins, Takes, Passes};
ghost use Rattle.proof_search.specs.FallingSides.{AreFalling};

use crate::falling_sides::{FallingSides, falling_sides};
use block_steps::TakenSteps;
use clause_core::{Clause, Step};
use fitting_lists::{LeadingPlace, leading};
use routine_proof::Move;
use std::alloc::Global;
use term_core::OutOfMemory;
use term_order::TermOrder;

/// A block that is being built: its nodes so far, of which the first ones have their steps.
#[derive(Drop)]
pub(crate) struct Building {
    pub block: TakenSteps,
    /// For each node the number of the node whose child it is, and 0 for node 0.
    pub parents: Vec<u32>,
    pub steps: Vec<Step>,
    /// For each node the place of its leading equation, if it has one.
    pub leadings: Vec<Option<LeadingPlace>>,
    /// The falling sides of node 0.
    pub sides: FallingSides,
}

impl Building {
    /// The node of the clause alone, without a step.
    pub fn new<O: TermOrder>(
        alloc: Global,
        order: &O,
        clause: Clause,
    ) -> Result<Building, OutOfMemory>
        ensures begins { IfOk result (Begins clause) }
        ensures sides { IfOk result (λ made. AreFalling (O.above order.now) clause made.sides) }
    {
        let sides = falling_sides(order, &clause);
        let mut leadings = Vec::new(alloc);
        leadings.push(leading(alloc, &clause)?)?;
        let block = TakenSteps::new(alloc, clause)?;
        let mut parents = Vec::new(alloc);
        parents.push(0)?;
        Ok(Building {
            block,
            parents,
            steps: Vec::new(alloc),
            leadings,
            sides,
        })
    }

    /// Gives the next node its step. The children that it makes come after the other nodes.
    pub fn take(&mut self, alloc: Global, taken: Move) -> Result<(), OutOfMemory>
        requires { length self.old.steps.items < 2 ^ 32 }
        ensures { OnOk result (Takes self.old self.new taken) }
    {
        let Move { step, made } = taken;
        let parent = self.steps.len() as u32;
        for child in made.clauses.as_slice() {
            self.leadings.push(leading(alloc, &child.clause)?)?;
            self.parents.push(parent)?;
        }
        self.block.add(alloc, made)?;
        self.steps.push(step)?;
        Ok(())
    }

    /// The first step, if there is one.
    pub fn first_step(self) -> Option<Step>
        ensures { result ≡ slice_get self.steps.items 0 }
    {
        first_of(self.steps)
    }

    /// Takes the next node out, so that it gets no step, and answers its clause.
    pub fn pass(&mut self) -> Clause
        requires whole { IsWhole self.old }
        requires next { length self.old.steps.items < length self.old.block.nodes.items }
        ensures { Passes self.old self.new result }
    {
        let next = self.steps.len();
        self.parents.remove(next);
        self.leadings.remove(next);
        let node = self.block.nodes.remove(next);
        node.clause
    }

    /// The number of covers on the way to the next node.
    pub fn covers_above(&self) -> u32
        requires whole { IsWhole self.now }
        requires next { length self.now.steps.items < length self.now.block.nodes.items }
    {
        let parents = self.parents.as_slice();
        let steps = self.steps.as_slice();
        let mut covers: u32 = 0;
        let mut here = steps.len();
        while here > 0 {
            here = parents[here] as usize;
            if is_cover(&steps[here]) {
                covers = covers.saturating_add(1);
            }
        }
        covers
    }

    /// The ancestors of a node from which some step on the way to it isn't a cover, from node 0 on.
    pub fn ancestors(&self, alloc: Global, node: u32) -> Result<Vec<u32>, OutOfMemory>
        requires whole { IsWhole self.now }
        requires in_range { node < length self.now.block.nodes.items }
        ensures { IfOk result (λ found. (here : WayNode) →
            slice_get (nodes_in self.now) node ≡ Some here → found.items ≡ ancestors_of here.way) }
    {
        let parents = self.parents.as_slice();
        let steps = self.steps.as_slice();
        let mut found = Vec::new(alloc);
        let mut here = node;
        while here > 0 {
            here = parents[here as usize];
            if !found.is_empty() || !is_cover(&steps[here as usize]) {
                found.push(here)?;
            }
        }
        found.reverse();
        Ok(found)
    }
}

/// The first of the steps, if there is one.
pub(crate) fn first_of(steps: Vec<Step>) -> Option<Step>
    ensures { result ≡ slice_get steps.items 0 }
{
    let mut rest = steps;
    if rest.is_empty() {
        return None;
    }
    Some(rest.swap_remove(0))
}

pub(crate) fn is_cover(step: &Step) -> bool
    ensures { result ≡ is_cover_of step.now }
{
    matches!(step, Step::Cover(..))
}
