//! The nodes and links of a block so far: a step is taken, added, or taken back.

ghost use Rattle.std.specs.Prelude.{◌≡◌, ◌≤◌, ◌++◌, [], ◌∷◌, IfOk, OnErr, OnOk, Contains, length};
ghost use Rattle.inference_rules.specs.Answers.{clauses_of};
ghost use Rattle.inference_rules.specs.Nodes.{AreNodes, clauses_made};
ghost use Rattle.block_links.specs.Links.{links_of};
ghost use Rattle.block_steps.specs.Taken.{TakesStep, TakesBack};

use block_links::apart;
use clause_core::{Children, Clause, Step, Why};
use inference_rules::{Node, StepError, children};
use spec_admit::Admitted;
use std::alloc::Global;
use term_core::OutOfMemory;
use term_order::TermOrder;

/// The nodes of a block so far, and the links from those whose steps are taken.
#[derive(Drop)]
pub struct TakenSteps {
    pub nodes: Vec<Node>,
    /// For each step the relations of its children and its references. The clauses of the children
    /// are in `nodes` alone.
    pub links: Vec<Children>,
}

impl TakenSteps {
    /// A block that begins with this clause, in which no step is taken.
    pub fn new(alloc: Global, start: Clause) -> Result<TakenSteps, OutOfMemory>
        ensures nodes { IfOk result (λ taken. clauses_of taken.nodes.items ≡ start ∷ []) }
        ensures links { IfOk result (λ taken. taken.links.items ≡ []) }
    {
        let mut nodes = Vec::new(alloc);
        nodes.push(Node { clause: start })?;
        Ok(TakenSteps {
            nodes,
            links: Vec::new(alloc),
        })
    }

    /// Takes the step of the next node.
    pub fn take<O: TermOrder>(
        &mut self,
        alloc: Global,
        admitted: &Admitted<O>,
        proved: &[u32],
        step: &Step,
    ) -> Result<(), StepError>
        requires few { length self.old.nodes.items ≤ 10000 }
        requires nodes { AreNodes admitted.now.spec.sig (clauses_of self.old.nodes.items) }
        ensures { TakesStep (O.above admitted.now.order) admitted.now.spec (Contains proved.now)
            self.old self.new step.now result }
    {
        let nodes = self.nodes.as_slice();
        let links = self.links.as_slice();
        let node = links.len();
        if node >= nodes.len() {
            return Err(StepError::Why(Why::NoSuchNode));
        }
        let spec = &admitted.spec;
        let order = &admitted.order;
        let made = children(alloc, spec, order, proved, nodes, node as u32, step)?;
        self.add(alloc, made)?;
        Ok(())
    }

    /// Adds the children that a step makes as nodes, and the links to them; or nothing.
    pub fn add(&mut self, alloc: Global, made: Children) -> Result<(), OutOfMemory>
        ensures nodes { OnOk result (clauses_of self.new.nodes.items
            ≡ clauses_of self.old.nodes.items ++ clauses_made made) }
        ensures links { OnOk result (self.new.links.items
            ≡ self.old.links.items ++ links_of made ∷ []) }
        ensures same_nodes { OnErr result (self.new.nodes.items ≡ self.old.nodes.items) }
        ensures same_links { OnErr result (self.new.links.items ≡ self.old.links.items) }
    {
        let (clauses, links) = apart(alloc, made)?;
        let mut nodes = Vec::with_capacity(alloc, clauses.len())?;
        for clause in clauses {
            nodes.push(Node { clause })?;
        }
        let before = self.nodes.len();
        self.nodes.append(&mut nodes)?;
        if self.links.push(links).is_err() {
            self.nodes.truncate(before);
            return Err(OutOfMemory);
        }
        Ok(())
    }

    /// Takes the last step back, with the nodes of the children that it made. It takes no memory.
    pub fn take_back(&mut self)
        ensures { TakesBack self.old self.new }
    {
        let Some(last) = self.links.pop() else {
            return;
        };
        let left = self.nodes.len().saturating_sub(last.clauses.len());
        self.nodes.truncate(left);
    }
}
