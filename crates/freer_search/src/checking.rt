//! Whether steps that were found prove the goal.

ghost use Rattle.std.specs.Prelude.{◌≡◌, ℕ, Some, IfOk, IfSome, Contains, slice_get};
ghost use Rattle.clause_core.specs.Tidied.{goal_clause};
ghost use Rattle.descent.specs.SortedChildren.{IsNode};
ghost use Rattle.block_steps.specs.Taken.{AreTaken};
ghost use Rattle.proof_script.specs.Ranges.{ClaimIsInRange};
ghost use Rattle.proof_search.specs.Guided.{proved_by};
ghost use Rattle.freer_search.specs.Found.{IsFound, IsShort};

use acceptance::{Allowed, allowed};
use block_steps::TakenSteps;
use clause_core::{Block, Claim, Clause, Outcome, Step, of_goal, within};
use inference_rules::StepError;
use proof_script::{MOST_CLAIM_BYTES, print_claim};
use proof_search::Guided;
use spec_admit::Admitted;
use spec_core::{Goal, Spec};
use std::alloc::Global;
use term_core::{OutOfMemory, Seq};
use term_order::TermOrder;

/// The block of these steps, if it proves the goal by the lemmas, and there are at most this many.
pub(crate) fn checked<O: TermOrder>(
    alloc: Global,
    admitted: &Admitted<O>,
    goal: &Goal,
    lemmas: &[u32],
    steps: Vec<Step>,
    most: u32,
) -> Result<Guided, OutOfMemory>
    requires { (k : ℕ) × (slice_get admitted.now.spec.goals k ≡ Some goal.now) }
    ensures { IfOk result (IsFound (O.above admitted.now.order) admitted.now.spec lemmas.now
        goal.now most) }
{
    clause_core::tidying_laws();
    let spec = &admitted.spec;
    if steps.len() > most as usize {
        return Ok(Guided::Unfinished);
    }
    let start = of_goal(alloc, goal)?;
    if !within(&start) {
        return Ok(Guided::Unfinished);
    }
    let Some(taken) = all_taken(alloc, admitted, lemmas, start, steps.as_slice())? else {
        return Ok(Guided::Unfinished);
    };
    if taken.nodes.len() > steps.len() {
        return Ok(Guided::Unfinished);
    }
    match allowed(alloc, taken.links.as_slice())? {
        Allowed::Not { .. } => Ok(Guided::Unfinished),
        Allowed::All => short(alloc, spec, goal, steps),
    }
}

/// The steps of a block that begins with this clause, taken one after the other, if each is
/// defined.
fn all_taken<O: TermOrder>(
    alloc: Global,
    admitted: &Admitted<O>,
    lemmas: &[u32],
    start: Clause,
    steps: &[Step],
) -> Result<Option<TakenSteps>, OutOfMemory>
    requires { IsNode admitted.now.spec.sig start }
    ensures { IfOk result (λ found. IfSome found (AreTaken (O.above admitted.now.order)
        admitted.now.spec (Contains lemmas.now) start steps.now)) }
{
    let mut taken = TakenSteps::new(alloc, start)?;
    for step in steps {
        match taken.take(alloc, admitted, lemmas, step) {
            Ok(()) => {}
            Err(StepError::Why(_)) => return Ok(None),
            Err(StepError::OutOfMemory) => return Err(OutOfMemory),
        }
    }
    Ok(Some(taken))
}

/// The block of these steps, if the claim that it proves the goal isn't too long for a report.
fn short(alloc: Global, spec: &Spec, goal: &Goal, steps: Vec<Step>) -> Result<Guided, OutOfMemory>
    requires { ClaimIsInRange spec.now.sig (proved_by goal.now (record { steps = steps.items })) }
    ensures { IfOk result (IsShort spec.now goal.now steps.items) }
{
    let claim = Claim {
        goal: goal.name.copy(alloc)?,
        outcome: Outcome::Proved(Block {
            steps: Seq::from_vec(steps),
        }),
    };
    let text = print_claim(alloc, &spec.sig, &claim)?;
    let Claim {
        goal: _name,
        outcome,
    } = claim;
    match outcome {
        Outcome::Proved(block) => {
            if text.len() > MOST_CLAIM_BYTES {
                return Ok(Guided::Unfinished);
            }
            Ok(Guided::Block(block))
        }
        _other => unreachable!(),
    }
}
