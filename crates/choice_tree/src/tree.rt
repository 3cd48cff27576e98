//! `Tree`: the nodes that a search has made so far.

ghost use Rattle.std.specs.Prelude.{◌≡◌, IfOk, IfSome};
ghost use Rattle.spec_core.specs.WellSorted.{IsWellSorted};
ghost use Rattle.descent.specs.SortedChildren.{IsNode};
ghost use Rattle.inference_rules.specs.Answers.{clauses_of};
ghost use Rattle.inference_rules.specs.Nodes.{AreNodes, clauses_made};

use clause_core::{Children, Clause, Step};
use clause_places::Spots;
use inference_rules::{Node, StepError, children};
use spec_core::Spec;
use std::alloc::Global;
use std::marker::Model;
use term_core::{OutOfMemory, SortId, Term};
use term_order::TermOrder;
use test_sets::test_set;

/// The nodes that a search has made so far, each of which can be a node of a block. A step refers
/// to a node by its number here. Contracts see the signature.
#[derive(Drop)]
pub struct Tree<'a> {
    spec: &'a Spec,
    nodes: Vec<Node>,
}

impl<'a> Model for Tree<'a> {
    ghost use Rattle.spec_core.specs.Sig.{Sig};
    ghost use Rattle.choice_tree.specs.Trees.{IsTree};

    ghost Value = { Sig };

    ghost view = { λ t. t.spec.now.sig };

    ghost invariant = { λ t. IsTree t.spec.now t.nodes.items };
}

impl<'a> Tree<'a> {
    /// The node of this clause alone.
    pub fn new(alloc: Global, spec: &'a Spec, clause: Clause) -> Result<Tree<'a>, OutOfMemory>
        requires fine { IsWellSorted spec.now }
        requires node { IsNode spec.now.sig clause }
    {
        let mut nodes = Vec::new(alloc);
        nodes.push(Node { clause })?;
        Ok(Tree { spec, nodes })
    }

    pub fn len(&self) -> usize {
        self.nodes.len()
    }

    /// The clause of the node with this number.
    pub fn clause(&self, node: u32) -> Option<&Clause> {
        match self.nodes.get(node as usize) {
            Some(node) => Some(&node.clause),
            None => None,
        }
    }

    /// The places of the node's clause.
    pub fn spots(&self, alloc: Global, node: u32) -> Result<Option<Spots>, OutOfMemory> {
        clause_places::places_are_there();
        let nodes = self.nodes.as_slice();
        if node as usize >= nodes.len() {
            return Ok(None);
        }
        let clause = &nodes[node as usize].clause;
        Ok(Some(Spots::of(alloc, clause)?))
    }

    /// The constructors of the sort, applied to variables.
    pub fn patterns(&self, alloc: Global, sort: SortId) -> Result<Vec<Term>, OutOfMemory> {
        test_set(alloc, &self.spec.sig, sort)
    }

    /// What the step makes at the node, if the table of steps defines it there.
    pub fn made<O: TermOrder>(
        &self,
        alloc: Global,
        order: &O,
        lemmas: &[u32],
        node: u32,
        step: &Step,
    ) -> Result<Option<Children>, OutOfMemory>
        ensures { IfOk result (λ found. IfSome found (λ made.
            AreNodes self.now (clauses_made made))) }
    {
        let nodes = self.nodes.as_slice();
        if node as usize >= nodes.len() {
            return Ok(None);
        }
        match children(alloc, self.spec, order, lemmas, nodes, node, step) {
            Ok(made) => Ok(Some(made)),
            Err(StepError::Why(_)) => Ok(None),
            Err(StepError::OutOfMemory) => Err(OutOfMemory),
        }
    }

    /// Adds the children as nodes.
    pub fn add(&mut self, alloc: Global, made: Children) -> Result<(), OutOfMemory>
        requires { AreNodes self.old (clauses_made made) }
    {
        let mut nodes = nodes_of(alloc, made)?;
        self.nodes.append(&mut nodes)?;
        Ok(())
    }

    /// Keeps this many nodes, those that were added first.
    pub fn truncate(&mut self, count: usize) {
        self.nodes.truncate(count);
    }
}

/// The children as nodes.
fn nodes_of(alloc: Global, made: Children) -> Result<Vec<Node>, OutOfMemory>
    ensures { IfOk result (λ nodes. clauses_of nodes.items ≡ clauses_made made) }
{
    let mut nodes = Vec::new(alloc);
    for child in made.clauses.into_vec() {
        nodes.push(Node {
            clause: child.clause,
        })?;
    }
    Ok(nodes)
}
