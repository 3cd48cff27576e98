//! `claim_on`: the claim that a search gives.

ghost use Rattle.std.specs.Prelude.{◌≡◌, ℕ, Some, IfOk, slice_get};
ghost use Rattle.spec_core.specs.WellSorted.{IsWellSorted};
ghost use Rattle.spec_core.specs.Overlap.{NoOverlap};
ghost use Rattle.spec_core.specs.Groups.{GroupsAreWhole};
ghost use Rattle.search_claims.specs.Claims.{IsClaimOn, named};

use clause_core::{Budget, Claim, Outcome};
use command_line::SearchBounds;
use refuter::{Search, search};
use spec_core::{Goal, Spec, VarInfo};
use std::alloc::Global;
use term_core::{Name, OutOfMemory, Seq, Term};

/// The claim on a goal of the specification that a search gives.
pub fn claim_on(
    alloc: Global,
    spec: &Spec,
    goal: &Goal,
    bounds: SearchBounds,
) -> Result<Claim, OutOfMemory>
    requires fine { IsWellSorted spec.now }
    requires apart { NoOverlap spec.now }
    requires whole { GroupsAreWhole spec.now }
    requires listed { (k : ℕ) × (slice_get spec.now.goals k ≡ Some goal.now) }
    ensures { IfOk result (IsClaimOn bounds spec.now goal.now) }
{
    let outcome = match search(alloc, spec, goal, bounds.depth, bounds.tries, bounds.steps)? {
        Search::Found { index, values } => Outcome::Refuted {
            index,
            values: named_values(alloc, goal.vars.as_slice(), values.as_slice())?,
        },
        Search::NotFound {
            tried,
            skipped,
            cut,
        } => Outcome::Open(Budget {
            depth: bounds.depth,
            tried,
            skipped,
            cut,
            plain: 0,
            nodes: 0,
        }),
    };
    Ok(Claim {
        goal: goal.name.copy(alloc)?,
        outcome,
    })
}

/// The values with the names of their variables.
fn named_values(
    alloc: Global,
    vars: &[VarInfo],
    values: &[Term],
) -> Result<Seq<(Name, Term)>, OutOfMemory>
    ensures { IfOk result (λ r. r ≡ named vars.now values.now) }
{
    let mut pairs = Seq::new(alloc);
    for (var, value) in vars.iter().zip(values) {
        pairs.push((var.name.copy(alloc)?, value.copy(alloc)?))?;
    }
    Ok(pairs)
}
