//! How far blocks may grow that are tried for many candidates.

ghost use Rattle.std.specs.Prelude.{◌<◌, ◌≤◌, length};
ghost use Rattle.proof_search.specs.Building.{IsWhole};

use crate::building::{Building, is_cover};
use clause_core::{Clause, MOST_SYMBOLS};
use routine_proof::Move;
use spec_core::Equation;

/// How far a block may grow before its start is given up.
#[derive(Clone, Copy)]
pub struct Limits {
    /// The most nodes of a block.
    pub nodes: u32,
    /// The most covers on the way to the children of a cover.
    pub covers: u32,
    /// The most symbols of a child.
    pub size: u32,
}

impl Limits {
    /// Whether the move may be made at the next node: a cover is inside few others, and no child
    /// is too large.
    pub(crate) fn allow(self, building: &Building, next: &Move) -> bool
        requires whole { IsWhole building.now }
        requires next { length building.now.steps.items < length building.now.block.nodes.items }
    {
        self.may_cover(building, next) && self.has_room(next)
    }

    /// Whether the move isn't a cover, or one inside few others.
    pub(crate) fn may_cover(self, building: &Building, next: &Move) -> bool
        requires whole { IsWhole building.now }
        requires next { length building.now.steps.items < length building.now.block.nodes.items }
    {
        !is_cover(&next.step) || building.covers_above() < self.covers
    }

    /// Whether no child is too large.
    pub(crate) fn has_room(self, next: &Move) -> bool {
        for child in &next.made.clauses {
            if symbols(&child.clause) > self.size {
                return false;
            }
        }
        true
    }
}

/// The number of symbols and variables, which is at most 4,000 in a node.
fn symbols(clause: &Clause) -> u32 {
    let premises = symbols_in(clause.premises.as_slice());
    let conclusions = symbols_in(clause.conclusions.as_slice());
    premises + conclusions
}

fn symbols_in(equations: &[Equation]) -> u32
    ensures { result ≤ 4000 }
{
    let mut size: u32 = 0;
    for equation in equations {
        size += equation.left.size(MOST_SYMBOLS - size);
        size += equation.right.size(MOST_SYMBOLS - size);
    }
    size
}
