//! Claim by claim, each as long as it has a cut.

ghost use Rattle.std.specs.Prelude.{◌≡◌, ℕ, Some, IfOk, slice_get};
ghost use Rattle.acceptance.specs.Accepting.{IsAccepted};
ghost use Rattle.script_trim.specs.Kept.{kept_report, IsKept};
ghost use Rattle.script_trim.specs.OneClaim.{with_claim, LeadsWithin};
ghost use Rattle.script_trim.specs.Placing.{IsPlaced};
ghost use Rattle.script_trim.specs.Trimmed.{with_steps, LeadsTo};

use crate::blocks::KeptBlock;
use crate::copying::copy_claim;
use crate::cutting::cut_block;
use crate::first_cuts::first_cut;
use crate::kept_blocks::kept_block;
use crate::lemmas::Lemmas;
use crate::placing::ClaimAt;
use clause_core::{Block, Claim, Outcome, Report, Step};
use spec_admit::Admitted;
use spec_core::Goal;
use std::alloc::Global;
use term_core::{OutOfMemory, Seq};
use term_order::TermOrder;

/// The claims of the report, trimmed one after the other.
pub(crate) fn trimmed_claims<O: TermOrder>(
    alloc: Global,
    admitted: &Admitted<O>,
    report: &Report,
) -> Result<Vec<Claim>, OutOfMemory>
    requires { IsAccepted (O.above admitted.now.order) admitted.now.spec report.now }
    ensures { IfOk result (λ claims. LeadsTo (O.above admitted.now.order) admitted.now.spec
        report.now (record { steps = report.now.steps; claims = claims.items })) }
{
    clause_core::one_relation(&admitted.order);
    let mut lemmas = Lemmas::new(alloc, &admitted.spec)?;
    let mut trimmed = Vec::with_capacity(alloc, report.claims.len())?;
    for (number, claim) in report.claims.as_slice().iter().enumerate() {
        let Some((goal_number, goal)) = admitted.spec.goal_named(&claim.goal) else {
            unreachable!();
        };
        let place = ClaimAt {
            report,
            number,
            lemmas: &lemmas,
        };
        trimmed.push(trimmed_claim(alloc, admitted, &place, goal, claim)?)?;
        if let Outcome::Proved(_) = &claim.outcome {
            lemmas.add(goal_number as u32)?;
        }
    }
    Ok(trimmed)
}

/// The claim on this goal after the cuts within it. A claim that isn't proved stays as it is.
fn trimmed_claim<O: TermOrder>(
    alloc: Global,
    admitted: &Admitted<O>,
    place: &ClaimAt,
    goal: &Goal,
    claim: &Claim,
) -> Result<Claim, OutOfMemory>
    requires placed { IsPlaced (O.above admitted.now.order) admitted.now.spec place.now }
    requires goal { (k : ℕ) × (slice_get admitted.now.spec.goals k ≡ Some goal.now)
        × (goal.now.name ≡ claim.now.goal) }
    requires there { slice_get place.now.report.now.claims place.now.number ≡ Some claim.now }
    ensures { IfOk result (λ made. LeadsWithin (O.above admitted.now.order) admitted.now.spec
        place.now.number place.now.report.now
        (with_claim place.now.report.now place.now.number made)) }
{
    let Outcome::Proved(block) = &claim.outcome else {
        return copy_claim(alloc, claim);
    };
    let kept = kept_block(alloc, admitted, place, goal, block.steps.as_slice())?;
    let steps = trim_block(alloc, admitted, place, kept)?;
    let steps = Seq::from_vec(steps);
    let name = claim.goal.copy(alloc)?;
    Ok(Claim {
        goal: name,
        outcome: Outcome::Proved(Block { steps }),
    })
}

/// The steps that are left after the cuts of the claim's block. After each cut the search for the
/// next one begins at the first node again, since a cut can make an earlier one possible.
fn trim_block<O: TermOrder>(
    alloc: Global,
    admitted: &Admitted<O>,
    place: &ClaimAt,
    block: KeptBlock,
) -> Result<Vec<Step>, OutOfMemory>
    requires placed { IsPlaced (O.above admitted.now.order) admitted.now.spec place.now }
    requires kept { IsKept (O.above admitted.now.order) admitted.now.spec place.now.report.now
        place.now.number block }
    ensures { IfOk result (λ steps. (k : IsKept (O.above admitted.now.order) admitted.now.spec
        place.now.report.now place.now.number block) →
        LeadsWithin (O.above admitted.now.order) admitted.now.spec place.now.number
        (kept_report (O.above admitted.now.order) admitted.now.spec place.now.report.now
        place.now.number k.name block)
        (with_steps place.now.report.now place.now.number k.name steps.items)) }
{
    clause_core::one_relation(&admitted.order);
    let mut block = block;
    while let Some(cut) = first_cut(alloc, admitted, place, &block)? {
        block = cut_block(alloc, admitted, place, block, cut)?;
    }
    let KeptBlock { steps, .. } = block;
    Ok(steps)
}
