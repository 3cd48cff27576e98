//! `deepen`: the first counterexample that searches to the depths from 1 to 8 find.

ghost use Rattle.std.specs.Prelude.{◌≡◌, ℕ, Some, IfOk, slice_get};
ghost use Rattle.spec_core.specs.WellSorted.{IsWellSorted};
ghost use Rattle.spec_core.specs.Overlap.{NoOverlap};
ghost use Rattle.spec_core.specs.Groups.{GroupsAreWhole};
ghost use Rattle.search_claims.specs.Deepening.{IsDeepened};

use crate::claims::claim_on;
use clause_core::{Claim, Outcome};
use command_line::SearchBounds;
use spec_core::{Goal, Spec};
use std::alloc::Global;
use term_core::{Name, OutOfMemory, Seq, Term};

/// A counterexample, with the depth to which it was searched.
#[derive(Drop)]
pub struct Deepened {
    pub depth: u32,
    pub values: Seq<(Name, Term)>,
}

/// What the first search that refutes the goal finds, of those to the depths from 1 to 8 with the
/// tries and steps of `bounds`. Its depth isn't used.
pub fn deepen(
    alloc: Global,
    spec: &Spec,
    goal: &Goal,
    bounds: SearchBounds,
) -> Result<Option<Deepened>, OutOfMemory>
    requires fine { IsWellSorted spec.now }
    requires apart { NoOverlap spec.now }
    requires whole { GroupsAreWhole spec.now }
    requires listed { (k : ℕ) × (slice_get spec.now.goals k ≡ Some goal.now) }
    ensures { IfOk result (IsDeepened bounds spec.now goal.now) }
{
    for depth in 1..9 {
        let bounds = SearchBounds { depth, ..bounds };
        let Claim { outcome, .. } = claim_on(alloc, spec, goal, bounds)?;
        if let Outcome::Refuted { values, .. } = outcome {
            return Ok(Some(Deepened { depth, values }));
        }
    }
    Ok(None)
}
