//! The claim that proves a goal, if one of several provers finds a proof.

ghost use Rattle.std.specs.Prelude.{◌<◌, length};
ghost use Rattle.proof_script.specs.Ranges.{ClaimIsInRange};
ghost use Rattle.proof_search.specs.Guided.{proved_by as claim_of};

use crate::entries::uses_of;
use clause_core::{Block, Claim, Outcome};
use proof_ladder::{Prover, first_proof};
use proof_script::print_claim;
use proof_search::Guided;
use spec_admit::Admitted;
use spec_core::Goal;
use spec_order::AnyOrder;
use std::alloc::Global;
use term_core::OutOfMemory;

/// The claim that a goal is proved.
#[derive(Drop)]
pub(crate) struct Proved {
    /// The lines of the claim.
    pub(crate) claim: Vec<u8>,
    /// The goals that its block names, by number.
    pub(crate) uses: Vec<u32>,
}

/// The claim that proves the last goal over the goals of these numbers as lemmas, if one of the
/// provers finds a proof.
pub(crate) fn proof_of_last(
    alloc: Global,
    admitted: &Admitted<AnyOrder>,
    lemmas: &[u32],
    provers: &[Prover],
) -> Result<Option<Proved>, OutOfMemory> {
    let count = admitted.spec.goals.len();
    match u32::try_from(count.saturating_sub(1)) {
        Ok(last) if (last as usize) < count => proof_of(alloc, admitted, last, lemmas, provers),
        _ => Ok(None),
    }
}

/// The same of the goal of this number.
fn proof_of(
    alloc: Global,
    admitted: &Admitted<AnyOrder>,
    number: u32,
    lemmas: &[u32],
    provers: &[Prover],
) -> Result<Option<Proved>, OutOfMemory>
    requires { number < length admitted.now.spec.goals }
{
    let goals = admitted.spec.goals.as_slice();
    let goal = &goals[number as usize];
    match first_proof(alloc, admitted, number, lemmas, provers)? {
        Guided::Block(block) => Ok(Some(proved_by(alloc, admitted, goal, block)?)),
        Guided::Unfinished => Ok(None),
    }
}

/// The claim that the block proves the goal.
fn proved_by(
    alloc: Global,
    admitted: &Admitted<AnyOrder>,
    goal: &Goal,
    block: Block,
) -> Result<Proved, OutOfMemory>
    requires { ClaimIsInRange admitted.now.spec.sig (claim_of goal.now block) }
{
    let uses = uses_of(alloc, &admitted.spec, &block)?;
    let claim = Claim {
        goal: goal.name.copy(alloc)?,
        outcome: Outcome::Proved(block),
    };
    let claim = print_claim(alloc, &admitted.spec.sig, &claim)?;
    Ok(Proved { claim, uses })
}
