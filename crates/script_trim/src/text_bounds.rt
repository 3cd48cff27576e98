//! How many bytes a claim has at most.

ghost use Rattle.std.specs.Prelude.{◌≡◌, ◌+◌, ◌<◌, ◌≤◌, [], ◌∷◌, Some, IfOk, length, slice_get};
ghost use Rattle.clause_core.specs.declared.reports.Claim.{Claim as ClaimOf};
ghost use Rattle.proof_script.specs.Claims.{claim_text};
ghost use Rattle.proof_script.specs.Ranges.{ClaimIsInRange};
ghost use Rattle.proof_script.specs.Steps.{step_line};
ghost use Rattle.proof_script.specs.Words.{line_text};
ghost use Rattle.script_trim.specs.Trimmed.{proves};

use crate::placing::ClaimAt;
use block_steps::copy_step;
use clause_core::{Block, Claim, Outcome, Step};
use proof_script::print_claim;
use spec_core::Signature;
use std::alloc::Global;
use term_core::{Name, OutOfMemory, Seq};

/// How many bytes the text of the claim has.
pub(crate) fn text_length(
    alloc: Global,
    sig: &Signature,
    place: &ClaimAt,
) -> Result<usize, OutOfMemory>
    requires there { place.now.number < length place.now.report.now.claims }
    requires range { (c : ClaimOf) →
        slice_get place.now.report.now.claims place.now.number ≡ Some c → ClaimIsInRange sig.now c }
    ensures { IfOk result (λ bytes. (c : ClaimOf) →
        slice_get place.now.report.now.claims place.now.number ≡ Some c →
        bytes ≡ length (claim_text sig.now c)) }
{
    match place.report.claims.as_slice().get(place.number) {
        Some(claim) => Ok(print_claim(alloc, sig, claim)?.len()),
        None => unreachable!(),
    }
}

/// A number of bytes that is greater by the length of the step's line at least. More than there are
/// numbers count as want of memory.
pub(crate) fn bytes_with(
    alloc: Global,
    sig: &Signature,
    name: &Name,
    bytes: usize,
    step: &Step,
) -> Result<usize, OutOfMemory>
    requires { ClaimIsInRange sig.now (proves name.now (step.now ∷ [])) }
    ensures { IfOk result
        (λ sum. bytes + length (line_text sig.now (step_line step.now)) ≤ sum) }
{
    let claim = claim_by(alloc, name, step)?;
    let text = print_claim(alloc, sig, &claim)?;
    let Some(sum) = bytes.checked_add(text.len()) else {
        return Err(OutOfMemory);
    };
    Ok(sum)
}

/// The claim that this step alone proves the goal of this name.
fn claim_by(alloc: Global, name: &Name, step: &Step) -> Result<Claim, OutOfMemory>
    ensures { IfOk result (λ claim. claim ≡ proves name.now (step.now ∷ [])) }
{
    let mut steps = Seq::new(alloc);
    steps.push(copy_step(alloc, step)?)?;
    Ok(Claim {
        goal: name.copy(alloc)?,
        outcome: Outcome::Proved(Block { steps }),
    })
}
