//! The choices at a node, and what they cost.

use crate::alike::clauses_alike;
use clause_core::{Children, Clause, Step};
use std::alloc::Global;
use term_core::OutOfMemory;

/// A kind of choices.
#[derive(Clone, Copy)]
pub enum Kind {
    /// A step that closes a node or makes it plainer. Others are tried beside it only if it is one
    /// by a rule.
    Forced,
    Hypothesis,
    Lemma,
    Case,
    /// One of the first two covers, or a later one.
    Cover,
    LaterCover,
    /// The first generalization, or a later one.
    Generalization,
    LaterGeneralization,
}

impl Kind {
    /// What a choice of this kind costs that isn't the first one at its node.
    fn cost(self) -> u32 {
        match self {
            Kind::Forced => 0,
            Kind::Hypothesis => 1,
            Kind::Lemma => 1,
            Kind::Case => 1,
            Kind::Cover => 1,
            Kind::LaterCover => 2,
            Kind::Generalization => 1,
            Kind::LaterGeneralization => 2,
        }
    }
}

/// A step that may be taken at a node.
#[derive(Drop)]
pub struct Choice {
    pub step: Step,
    pub cost: u32,
}

/// The choices at a node in the order in which they are tried.
#[derive(Drop)]
pub struct Choices {
    list: Vec<Choice>,
    /// The first child of each choice that has one: choices that make the same are one.
    seen: Vec<Clause>,
    is_root: bool,
}

impl Choices {
    /// No choices yet. Those of node 0 cost nothing.
    pub fn new(alloc: Global, is_root: bool) -> Choices {
        Choices {
            list: Vec::new(alloc),
            seen: Vec::new(alloc),
            is_root,
        }
    }

    pub fn len(&self) -> usize {
        self.list.len()
    }

    pub fn is_empty(&self) -> bool {
        self.list.is_empty()
    }

    /// Adds the step, which makes these children, unless an earlier choice makes the same.
    pub fn offer(&mut self, kind: Kind, step: Step, made: Children) -> Result<(), OutOfMemory> {
        let mut children = made.clauses.into_vec();
        children.truncate(1);
        if let Some(child) = children.pop() {
            if self.has_seen(&child.clause) {
                return Ok(());
            }
            self.seen.push(child.clause)?;
        }
        let cost = if self.is_root || self.list.is_empty() {
            0
        } else {
            kind.cost()
        };
        self.list.push(Choice { step, cost })?;
        Ok(())
    }

    fn has_seen(&self, clause: &Clause) -> bool {
        for seen in self.seen.as_slice() {
            if clauses_alike(seen, clause) {
                return true;
            }
        }
        false
    }

    /// The choices, the one to be tried first at the end.
    pub fn into_stack(self) -> Vec<Choice> {
        let Choices { list, .. } = self;
        let mut stack = list;
        stack.reverse();
        stack
    }
}
