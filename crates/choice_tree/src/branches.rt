//! What is known of a node beside its clause.

ghost use Rattle.std.specs.Prelude.{◌≡◌, None};

use clause_core::Step;
use std::alloc::Global;
use term_core::OutOfMemory;

/// What is known of a node beside its clause: the node whose child it is, its step, and the numbers
/// of its children, which come one after the other.
#[derive(Drop)]
pub struct Branch {
    pub parent: u32,
    pub depth: u32,
    /// How many covers and how many generalizations are on the way from node 0.
    pub covers: u32,
    pub generalizations: u32,
    pub step: Option<Step>,
    pub first: u32,
    pub end: u32,
}

impl Branch {
    /// That of node 0.
    pub fn root() -> Branch
        ensures { result.step ≡ None }
    {
        Branch {
            parent: 0,
            depth: 0,
            covers: 0,
            generalizations: 0,
            step: None,
            first: 0,
            end: 0,
        }
    }

    /// That of a child of the node with this number, which has its step.
    pub fn child(&self, parent: u32) -> Branch
        ensures step { result.step ≡ None }
        ensures parent { result.parent ≡ parent }
    {
        let is_general = matches!(&self.step, Some(Step::Generalize(_)));
        Branch {
            parent,
            depth: self.depth.saturating_add(1),
            covers: self.covers.saturating_add(self.is_cover() as u32),
            generalizations: self.generalizations.saturating_add(is_general as u32),
            step: None,
            first: 0,
            end: 0,
        }
    }

    /// The same branch again, which has no step yet.
    pub fn unstepped(&self) -> Branch
        ensures step { result.step ≡ None }
        ensures parent { result.parent ≡ self.now.parent }
    {
        Branch {
            parent: self.parent,
            depth: self.depth,
            covers: self.covers,
            generalizations: self.generalizations,
            step: None,
            first: 0,
            end: 0,
        }
    }

    fn is_cover(&self) -> bool {
        matches!(&self.step, Some(Step::Cover(..)))
    }

    /// Whether the node's children aren't less than it.
    pub fn stays(&self) -> bool {
        matches!(&self.step, Some(Step::Cover(..) | Step::Generalize(_)))
    }

    /// Whether nodes below may use the node's clause as a hypothesis, as it parts into cases or is
    /// made more general.
    pub fn is_hypothesis(&self) -> bool {
        matches!(
            &self.step,
            Some(Step::Cover(..) | Step::Case(..) | Step::Generalize(_))
        )
    }
}

/// The ancestors of the node, from its parent to node 0.
pub(crate) fn ancestors(
    alloc: Global,
    branches: &[Branch],
    node: u32,
) -> Result<Vec<u32>, OutOfMemory> {
    let mut found = Vec::new(alloc);
    let mut here = node;
    for _ in 0..branches.len() {
        if here == 0 {
            break;
        }
        let Some(branch) = branches.get(here as usize) else {
            break;
        };
        here = branch.parent;
        found.push(here)?;
    }
    Ok(found)
}
