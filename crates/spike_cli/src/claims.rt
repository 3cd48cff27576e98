//! What a report says of a goal: its search, then its plain or routine proof.

ghost use Rattle.std.specs.Prelude.{◌≡◌, ◌≤◌, Some, IfOk, slice_get};
ghost use Rattle.spec_order.specs.Orders.{order_of};
ghost use Rattle.spike_cli.specs.Claims.{IsClaimOn, IsUnrefuted, budget_of};
ghost use Rattle.spike_cli.specs.Lemmas.{AreLemmas};

use clause_core::{Budget, Claim, Outcome};
use command_line::ProofBounds;
use plain_search::plain;
use proof_search::{Guided, guided};
use routine_proof::proves_behind_claims;
use soundness::accepted_are_true;
use spec_admit::Admitted;
use spec_core::Goal;
use spec_order::AnyOrder;
use std::alloc::Global;
use term_core::OutOfMemory;

/// A goal of a specification, with its number.
#[derive(Clone, Copy)]
pub struct NumberedGoal<'a> {
    pub number: u32,
    pub goal: &'a Goal,
}

/// The claim on a goal of the specification, with the goals of these numbers as lemmas: what a
/// search gives, or a plain or a routine proof if it finds no counterexample.
pub fn claim_on(
    alloc: Global,
    admitted: &Admitted<AnyOrder>,
    goal: NumberedGoal<'_>,
    bounds: ProofBounds,
    lemmas: &[u32],
) -> Result<Claim, OutOfMemory>
    requires ordered { admitted.now.order ≡ order_of admitted.now.spec }
    requires listed { slice_get admitted.now.spec.goals goal.number ≡ Some goal.goal.now }
    requires short { bounds.plain ≤ 1000 }
    requires lemmas { AreLemmas bounds.search.steps admitted.now.spec goal.goal.now lemmas.now }
    ensures { IfOk result (IsClaimOn bounds admitted.now.spec lemmas.now goal.entry.goal.now) }
{
    accepted_are_true(&admitted.order);
    proves_behind_claims(&admitted.order);
    let Claim {
        goal: name,
        outcome,
    } = search_claims::claim_on(alloc, &admitted.spec, goal.goal, bounds.search)?;
    let outcome = match outcome {
        Outcome::Open(searched) => unrefuted(alloc, admitted, goal, bounds, lemmas, searched)?,
        outcome => outcome,
    };
    Ok(Claim {
        goal: name,
        outcome,
    })
}

/// What is claimed of a goal for which a search of these numbers found no counterexample.
fn unrefuted(
    alloc: Global,
    admitted: &Admitted<AnyOrder>,
    goal: NumberedGoal<'_>,
    bounds: ProofBounds,
    lemmas: &[u32],
    searched: Budget,
) -> Result<Outcome, OutOfMemory>
    requires ordered { admitted.now.order ≡ order_of admitted.now.spec }
    requires listed { slice_get admitted.now.spec.goals goal.number ≡ Some goal.goal.now }
    requires short { bounds.plain ≤ 1000 }
    ensures { IfOk result (IsUnrefuted bounds admitted.now.spec lemmas.now goal.entry.goal.now
        (budget_of bounds searched.tried searched.skipped searched.cut)) }
{
    if let Some(block) = plain(alloc, admitted, goal.goal, bounds.plain)? {
        return Ok(Outcome::Proved(block));
    }
    match guided(alloc, admitted, goal.number, lemmas, bounds.nodes)? {
        Guided::Block(block) => Ok(Outcome::Proved(block)),
        Guided::Unfinished => Ok(Outcome::Open(Budget {
            depth: bounds.search.depth,
            tried: searched.tried,
            skipped: searched.skipped,
            cut: searched.cut,
            plain: bounds.plain,
            nodes: bounds.nodes,
        })),
    }
}
