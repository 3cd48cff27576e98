//! A block with names, and what is written of its nodes.

ghost use Rattle.std.specs.Prelude.{◌≡◌, ◌+◌, ◌<◌, OnOk, slice_get};
ghost use Rattle.acceptance.specs.Strict.{first_child as first_child_of};
ghost use Rattle.page_core.specs.Pages.{after};
ghost use Rattle.proof_trees.specs.Blocks.{IsWhole, block_of};
ghost use Rattle.proof_trees.specs.Nodes.{heading_events, names_at as names_of_node};
ghost use Rattle.proof_trees.specs.Nodes.{node_events, outline, pattern_names as names_of_pattern};
ghost use Rattle.proof_trees.specs.Nodes.{premise_count as count_premises};
ghost use Rattle.proof_trees.specs.Nodes.{referred_names as names_referred_to, shown_case};
ghost use Rattle.proof_trees.specs.Nodes.{shown_clause, shown_step, step_mark};

use clause_core::{Children, Step};
use inference_rules::Node;
use node_names::NodeNames;
use page_core::{Anchor, Page, Part, Style};
use proof_words::{CaseAt, Naming, StepAt, draw_case, draw_clause, draw_step, marked_place};
use spec_core::{Spec, append_decimal};
use std::alloc::Global;
use term_core::{Name, OutOfMemory};

/// A block of a goal's proof, with names for its variables.
#[derive(Clone, Copy)]
pub struct NamedBlock<'a> {
    pub alloc: Global,
    pub spec: &'a Spec,
    /// The number of the goal, from 0 on.
    pub goal: u32,
    pub nodes: &'a [Node],
    pub steps: &'a [Step],
    /// What each step makes, without the clauses of children.
    pub links: &'a [Children],
    pub names: &'a [NodeNames],
    /// For each step the number that its first child has, or would have.
    pub firsts: &'a [u32],
}

impl<'a> NamedBlock<'a> {
    /// Draws the number and the clause of a node, and what its step says.
    pub(crate) fn draw_node(&self, page: &mut Page, node: u32) -> Result<(), OutOfMemory>
        ensures { OnOk result (page.new ≡ after page.old (node_events (block_of self.now) node)) }
    {
        let goal = self.goal;
        let mut number = Vec::new(self.alloc);
        append_decimal(node as usize, &mut number)?;
        page.begin(Part::Node { goal, node })?;
        page.link(Anchor::Node { goal, node }, &number)?;
        page.text(Style::Plain, b"  ")?;
        self.draw_clause(page, node)?;
        page.end(Part::Node { goal, node })?;
        page.begin(Part::Step)?;
        self.draw_step(page, node)?;
        page.end(Part::Step)
    }

    /// Draws the clause of a node, with the place of its step marked.
    fn draw_clause(&self, page: &mut Page, node: u32) -> Result<(), OutOfMemory>
        ensures { OnOk result (page.new ≡ after page.old (shown_clause (block_of self.now) node
            (step_mark (slice_get self.now.steps.now node))
            (slice_get (block_of self.now).clauses node))) }
    {
        let mark = match self.steps.get(node as usize) {
            Some(step) => marked_place(step),
            None => None,
        };
        let naming = Naming {
            alloc: self.alloc,
            sig: &self.spec.sig,
            names: self.names_at(node),
        };
        match self.nodes.get(node as usize) {
            Some(here) => draw_clause(page, &naming, mark, &here.clause),
            None => Ok(()),
        }
    }

    /// Draws what the step of a node says.
    fn draw_step(&self, page: &mut Page, node: u32) -> Result<(), OutOfMemory>
        ensures { OnOk result (page.new ≡ after page.old
            (shown_step (block_of self.now) node (slice_get self.now.steps.now node))) }
    {
        let Some(step) = self.steps.get(node as usize) else {
            return Ok(());
        };
        let at = StepAt {
            alloc: self.alloc,
            spec: self.spec,
            goal: self.goal,
            names: self.names_at(node),
            referred: self.referred_names(step),
        };
        draw_step(page, &at, step)
    }

    /// Draws the heading of a case of a node, from 0 on, whose child is this one.
    pub(crate) fn draw_heading(
        &self,
        page: &mut Page,
        node: u32,
        index: u32,
        child: u32,
    ) -> Result<(), OutOfMemory>
        requires { child ≡ first_child_of self.now.links.now node + index }
        ensures { OnOk result (page.new ≡ after page.old
            (heading_events (block_of self.now) node index)) }
    {
        page.begin(Part::CaseHeading)?;
        self.draw_case(page, node, index, child)?;
        page.end(Part::CaseHeading)
    }

    /// Draws what is said of a case of a node.
    fn draw_case(
        &self,
        page: &mut Page,
        node: u32,
        index: u32,
        child: u32,
    ) -> Result<(), OutOfMemory>
        ensures { OnOk result (page.new ≡ after page.old (shown_case (block_of self.now) node index
            child (slice_get self.now.steps.now node)
            (slice_get (block_of self.now).clauses child))) }
    {
        let Some(step) = self.steps.get(node as usize) else {
            return Ok(());
        };
        let Some(made) = self.nodes.get(child as usize) else {
            return Ok(());
        };
        let case = CaseAt {
            alloc: self.alloc,
            sig: &self.spec.sig,
            names: self.names_at(node),
            pattern_names: self.pattern_names(child),
            child_names: self.names_at(child),
            premises: self.premise_count(node),
        };
        draw_case(page, &case, step, index, &made.clause)
    }

    /// The names of the variables at a node.
    fn names_at(&self, node: u32) -> &'a [Name]
        ensures { result.now ≡ names_of_node (block_of self.now) node }
    {
        match self.names.get(node as usize) {
            Some(names) => names.variables.as_slice(),
            None => &[],
        }
    }

    /// The names of the variables of the pattern by which a node came from its parent.
    fn pattern_names(&self, node: u32) -> &'a [Name]
        ensures { result.now ≡ names_of_pattern (slice_get self.now.names.now node) }
    {
        match self.names.get(node as usize) {
            Some(names) => names.pattern.as_slice(),
            None => &[],
        }
    }

    /// The names at the node that a step refers to.
    fn referred_names(&self, step: &Step) -> &'a [Name]
        ensures { result.now ≡ names_referred_to (block_of self.now) step.now }
    {
        match step {
            Step::Subsume(node, _) | Step::Hyp(node, _, _, _) => self.names_at(*node),
            _ => &[],
        }
    }

    /// How many premises the clause of a node has.
    fn premise_count(&self, node: u32) -> usize
        ensures { result ≡ count_premises (slice_get (block_of self.now).clauses node) }
    {
        match self.nodes.get(node as usize) {
            Some(here) => here.clause.premises.len(),
            None => 0,
        }
    }

    /// How many children a node has.
    pub(crate) fn child_count(&self, node: u32) -> u32
        requires { IsWhole self.now }
        ensures { result ≡ (outline (block_of self.now)).count node }
    {
        match self.links.get(node as usize) {
            Some(made) => made.clauses.len() as u32,
            None => 0,
        }
    }

    /// Whether the children of a node are cases.
    pub(crate) fn has_cases(&self, node: u32) -> bool
        requires { IsWhole self.now }
        ensures { result ≡ (outline (block_of self.now)).has_cases node }
    {
        let splits = matches!(
            self.steps.get(node as usize),
            Some(Step::Cover(_, _) | Step::Case(_, _))
        );
        splits || self.child_count(node) > 1
    }

    /// The number of a child of a node.
    pub(crate) fn child(&self, node: u32, index: u32) -> u32
        requires whole { IsWhole self.now }
        requires there { index < (outline (block_of self.now)).count node }
        ensures { result ≡ first_child_of self.now.links.now node + index }
    {
        self.firsts[node as usize] + index
    }
}
