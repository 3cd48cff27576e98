//! A node whose choices are sought.

use crate::alike::clauses_alike;
use crate::branches::{Branch, ancestors};
use crate::setting::Setting;
use crate::tree::Tree;
use clause_core::{Children, Clause, Relation, Step};
use clause_places::Spots;
use std::alloc::Global;
use term_core::OutOfMemory;
use term_order::TermOrder;

/// A node whose choices are sought, in its tree.
#[derive(Drop)]
pub struct Here<'a, O: TermOrder> {
    pub setting: &'a Setting<'a, O>,
    pub tree: &'a Tree<'a>,
    pub branches: &'a [Branch],
    pub node: u32,
    pub clause: &'a Clause,
    pub spots: Spots<'a>,
    /// The nodes above it, from its parent to node 0.
    pub above: Vec<u32>,
}

impl<'a, O: TermOrder> Here<'a, O> {
    /// The node with this number, if there is one.
    pub fn at(
        alloc: Global,
        setting: &'a Setting<'a, O>,
        tree: &'a Tree<'a>,
        branches: &'a [Branch],
        node: u32,
    ) -> Result<Option<Here<'a, O>>, OutOfMemory> {
        let Some(clause) = tree.clause(node) else {
            return Ok(None);
        };
        let Some(spots) = tree.spots(alloc, node)? else {
            return Ok(None);
        };
        let above = ancestors(alloc, branches, node)?;
        Ok(Some(Here {
            setting,
            tree,
            branches,
            node,
            clause,
            spots,
            above,
        }))
    }

    pub fn is_root(&self) -> bool {
        self.node == 0
    }

    /// The branch of the node with this number.
    pub fn branch(&self, node: u32) -> Option<&Branch> {
        self.branches.get(node as usize)
    }

    /// What the step makes here, if the table of steps defines it.
    pub fn made(&self, alloc: Global, step: &Step) -> Result<Option<Children>, OutOfMemory> {
        let setting = self.setting;
        self.tree
            .made(alloc, setting.order, setting.numbers, self.node, step)
    }

    /// Whether the clause is that of a node above.
    pub fn is_again(&self) -> bool {
        for number in self.above.as_slice() {
            if let Some(clause) = self.tree.clause(*number) {
                if clauses_alike(clause, self.clause) {
                    return true;
                }
            }
        }
        false
    }

    /// Whether some step on the way from the node above to here makes less than its clause, so that
    /// a reference to that node may be to the same.
    pub fn has_moved(&self, from: u32) -> bool {
        for number in self.above.as_slice() {
            if let Some(branch) = self.branch(*number) {
                if !branch.stays() {
                    return true;
                }
            }
            if *number == from {
                break;
            }
        }
        false
    }
}

/// Whether what is made falls: each child is less.
pub fn falls(made: &Children) -> bool {
    for child in made.clauses.as_slice() {
        if child.relation != Relation::Less {
            return false;
        }
    }
    true
}

/// How the node compares with what the step refers to, if it refers to anything.
pub fn reference(made: &Children) -> Option<Relation> {
    match made.refs.as_slice().first() {
        Some(reference) => Some(reference.relation),
        None => None,
    }
}
