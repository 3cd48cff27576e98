//! `first_proof`: the first block that one of several provers finds.

ghost use Rattle.std.specs.Prelude.{◌≡◌, ◌<◌, ℕ, List, Some, IfOk, length, slice_get};
ghost use Rattle.spec_core.specs.declared.records.Goal.{Goal as GoalOf};
ghost use Rattle.proof_ladder.specs.Reportable.{IsReportable};

use crate::provers::Prover;
use freer_search::freer;
use plain_search::plain;
use proof_search::{Guided, proof_within};
use spec_admit::Admitted;
use std::alloc::Global;
use term_core::OutOfMemory;
use term_order::TermOrder;

/// The greatest length of a plain proof.
const PLAIN_LENGTH: u32 = 400;

/// The first block that one of the provers finds for the goal of this number, over the goals of the
/// other numbers as lemmas. Unfinished says that none of them found one.
pub fn first_proof<O: TermOrder>(
    alloc: Global,
    admitted: &Admitted<O>,
    goal: u32,
    lemmas: &[u32],
    provers: &[Prover],
) -> Result<Guided, OutOfMemory>
    requires { goal < length admitted.now.spec.goals }
    ensures { IfOk result (λ found. (it : GoalOf) →
        slice_get admitted.now.spec.goals goal ≡ Some it →
        IsReportable (O.above admitted.now.order) admitted.now.spec lemmas.now it found) }
{
    for prover in provers {
        let found = proof_by(alloc, admitted, goal, lemmas, prover)?;
        if matches!(found, Guided::Block(_)) {
            return Ok(found);
        }
    }
    Ok(Guided::Unfinished)
}

/// The block that the prover finds for the goal of this number.
fn proof_by<O: TermOrder>(
    alloc: Global,
    admitted: &Admitted<O>,
    goal: u32,
    lemmas: &[u32],
    prover: &Prover,
) -> Result<Guided, OutOfMemory>
    requires { goal < length admitted.now.spec.goals }
    ensures { IfOk result (λ found. (it : GoalOf) →
        slice_get admitted.now.spec.goals goal ≡ Some it →
        IsReportable (O.above admitted.now.order) admitted.now.spec lemmas.now it found) }
{
    match prover {
        Prover::Plain => plain_proof(alloc, admitted, goal),
        Prover::Routine(limits) => proof_within(alloc, admitted, goal, lemmas, *limits),
        Prover::Freer(bounds) => freer(alloc, admitted, goal, lemmas, *bounds),
    }
}

/// The block of the plain proof of the goal of this number.
fn plain_proof<O: TermOrder>(
    alloc: Global,
    admitted: &Admitted<O>,
    goal: u32,
) -> Result<Guided, OutOfMemory>
    requires { goal < length admitted.now.spec.goals }
    ensures { (lemmas : List ℕ) → IfOk result (λ found. (it : GoalOf) →
        slice_get admitted.now.spec.goals goal ≡ Some it →
        IsReportable (O.above admitted.now.order) admitted.now.spec lemmas it found) }
{
    let goals = admitted.spec.goals.as_slice();
    let goal = &goals[goal as usize];
    match plain(alloc, admitted, goal, PLAIN_LENGTH)? {
        Some(block) => Ok(Guided::Block(block)),
        None => Ok(Guided::Unfinished),
    }
}
