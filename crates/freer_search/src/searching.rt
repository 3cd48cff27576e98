//! The search, turn by turn.

ghost use Rattle.spec_core.specs.WellSorted.{IsWellSorted};
ghost use Rattle.descent.specs.SortedChildren.{IsNode};

use crate::steps::choices_at;
use choice_tree::{Branch, Choice, Here, Setting, Tree};
use clause_core::{Clause, Step};
use sample_values::Samples;
use spec_core::Equation;
use std::alloc::Global;
use term_core::OutOfMemory;
use term_order::TermOrder;

/// The longest path that is gone.
const MOST_DEPTH: u32 = 60;

/// A node on the path to the one that is looked at, with the choices that are left there.
#[derive(Drop)]
struct Frame {
    node: u32,
    choices: Vec<Choice>,
    /// What choices may cost here and below, and what the choice that is tried cost.
    allowance: u32,
    spent: u32,
    is_tried: bool,
    /// How many nodes there were before the children of the choice that is tried.
    before: usize,
    /// The children that aren't proved yet.
    next: u32,
    end: u32,
}

/// Where a search is after a turn.
#[derive(Clone, Copy, PartialEq, Eq)]
pub(crate) enum Turn {
    Proved,
    Failed,
    GoesOn,
}

/// A search for a proof of one clause, within a bound of the cost.
#[derive(Drop)]
pub(crate) struct Search<'a, O: TermOrder> {
    setting: &'a Setting<'a, O>,
    tree: Tree<'a>,
    /// For each node of the tree.
    branches: Vec<Branch>,
    frames: Vec<Frame>,
    /// How many nodes may still be looked at.
    left: u32,
    /// The most symbols of a clause.
    most_symbols: u32,
    /// What tries generalizations.
    samples: Samples<'a>,
}

impl<'a, O: TermOrder> Search<'a, O> {
    /// A search that begins with this clause, at which this much may be spent.
    pub(crate) fn new(
        alloc: Global,
        setting: &'a Setting<'a, O>,
        clause: Clause,
        nodes: u32,
        allowance: u32,
    ) -> Result<Search<'a, O>, OutOfMemory>
        requires fine { IsWellSorted setting.now.spec.now }
        requires node { IsNode setting.now.spec.now.sig clause }
    {
        let most_symbols = symbols(&clause).saturating_mul(4).saturating_add(40);
        let samples = Samples::new(alloc, setting.spec)?;
        let tree = Tree::new(alloc, setting.spec, clause)?;
        let mut branches = Vec::new(alloc);
        branches.push(Branch::root())?;
        let mut search = Search {
            setting,
            tree,
            branches,
            frames: Vec::new(alloc),
            left: nodes,
            most_symbols,
            samples,
        };
        search.enter(alloc, 0, allowance)?;
        Ok(search)
    }

    /// The branches of the nodes.
    pub(crate) fn branches(&self) -> &[Branch] {
        self.branches.as_slice()
    }

    /// Goes on by one turn: looks at a child, tries a choice, or leaves a node.
    pub(crate) fn turn(&mut self, alloc: Global) -> Result<Turn, OutOfMemory> {
        let Some(frame) = self.frames.last_mut() else {
            return Ok(Turn::Failed);
        };
        if frame.next < frame.end {
            let child = frame.next;
            frame.next = child.saturating_add(1);
            let allowance = frame.allowance.saturating_sub(frame.spent);
            return self.enter(alloc, child, allowance);
        }
        if frame.is_tried {
            self.frames.pop();
            return Ok(self.proved());
        }
        match frame.choices.pop() {
            Some(choice) => self.try_choice(alloc, choice),
            None => {
                self.frames.pop();
                self.take_back();
                Ok(Turn::GoesOn)
            }
        }
    }

    /// Whether all is proved, where a node was left that is.
    fn proved(&self) -> Turn {
        if self.frames.is_empty() {
            Turn::Proved
        } else {
            Turn::GoesOn
        }
    }

    /// Looks at a node: finds its choices.
    fn enter(&mut self, alloc: Global, node: u32, allowance: u32) -> Result<Turn, OutOfMemory> {
        if self.left == 0 {
            return Ok(Turn::Failed);
        }
        self.left -= 1;
        let choices = self.choices(alloc, node, allowance)?;
        self.frames.push(Frame {
            node,
            choices,
            allowance,
            spent: 0,
            is_tried: false,
            before: 0,
            next: 0,
            end: 0,
        })?;
        Ok(Turn::GoesOn)
    }

    /// The choices at the node. There are none if the clause is too large or the path too long.
    fn choices(
        &mut self,
        alloc: Global,
        node: u32,
        allowance: u32,
    ) -> Result<Vec<Choice>, OutOfMemory> {
        let none = Vec::new(alloc);
        let branches = self.branches.as_slice();
        let Some(branch) = branches.get(node as usize) else {
            return Ok(none);
        };
        if branch.depth > MOST_DEPTH {
            return Ok(none);
        }
        let Some(here) = Here::at(alloc, self.setting, &self.tree, branches, node)? else {
            return Ok(none);
        };
        if symbols(here.clause) > self.most_symbols {
            return Ok(none);
        }
        choices_at(alloc, &here, &mut self.samples, allowance)
    }

    /// Tries the choice at the last node of the path, if it isn't too dear.
    fn try_choice(&mut self, alloc: Global, choice: Choice) -> Result<Turn, OutOfMemory> {
        let Some(frame) = self.frames.last_mut() else {
            return Ok(Turn::Failed);
        };
        if choice.cost > frame.allowance {
            return Ok(Turn::GoesOn);
        }
        let before = self.tree.len();
        let setting = self.setting;
        let Some(made) = self.tree.made(
            alloc,
            setting.order,
            setting.numbers,
            frame.node,
            &choice.step,
        )?
        else {
            return Ok(Turn::GoesOn);
        };
        self.tree.add(alloc, made)?;
        frame.spent = choice.cost;
        frame.is_tried = true;
        frame.before = before;
        frame.next = narrow(before);
        frame.end = narrow(self.tree.len());
        let (node, first, end) = (frame.node, frame.next, frame.end);
        self.grow(node, choice.step, first, end)
    }

    /// Marks the step of the node, with its children.
    fn grow(&mut self, node: u32, step: Step, first: u32, end: u32) -> Result<Turn, OutOfMemory> {
        let Some(branch) = self.branches.get_mut(node as usize) else {
            return Ok(Turn::Failed);
        };
        branch.step = Some(step);
        branch.first = first;
        branch.end = end;
        let child = branch.child(node);
        for _ in first..end {
            self.branches.push(child.unstepped())?;
        }
        Ok(Turn::GoesOn)
    }

    /// Takes back the choice at the last node of the path, with all nodes below it.
    fn take_back(&mut self) {
        let Some(frame) = self.frames.last_mut() else {
            return;
        };
        frame.is_tried = false;
        frame.next = 0;
        frame.end = 0;
        self.tree.truncate(frame.before);
        self.branches.truncate(frame.before);
    }
}

/// The number in 32 bits. The table of steps makes no more than 10,000 nodes.
fn narrow(count: usize) -> u32 {
    count.min(u32::MAX as usize) as u32
}

/// The number of symbols and variables.
fn symbols(clause: &Clause) -> u32 {
    symbols_in(clause.premises.as_slice()).saturating_add(symbols_in(clause.conclusions.as_slice()))
}

fn symbols_in(equations: &[Equation]) -> u32 {
    let mut size: u32 = 0;
    for equation in equations {
        size = size.saturating_add(equation.left.size(u32::MAX));
        size = size.saturating_add(equation.right.size(u32::MAX));
    }
    size
}
