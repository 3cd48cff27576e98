//! Copies of claims and lists of steps.

ghost use Rattle.std.specs.Prelude.{◌≡◌, IfOk};

use block_steps::copy_step;
use clause_core::{Block, Claim, Outcome, Step};
use std::alloc::Global;
use term_core::{Name, OutOfMemory, Seq, Term};

/// A copy of the claim.
pub(crate) fn copy_claim(alloc: Global, claim: &Claim) -> Result<Claim, OutOfMemory>
    ensures { IfOk result (λ made. made ≡ claim.now) }
{
    Ok(Claim {
        goal: claim.goal.copy(alloc)?,
        outcome: copy_outcome(alloc, &claim.outcome)?,
    })
}

fn copy_outcome(alloc: Global, outcome: &Outcome) -> Result<Outcome, OutOfMemory>
    ensures { IfOk result (λ made. made ≡ outcome.now) }
{
    match outcome {
        Outcome::Proved(block) => {
            let steps = copy_steps(alloc, block.steps.as_slice())?;
            let steps = Seq::from_vec(steps);
            Ok(Outcome::Proved(Block { steps }))
        }
        Outcome::Refuted { index, values } => Ok(Outcome::Refuted {
            index: *index,
            values: copy_values(alloc, values.as_slice())?,
        }),
        Outcome::Open(budget) => Ok(Outcome::Open(*budget)),
    }
}

fn copy_values(alloc: Global, values: &[(Name, Term)]) -> Result<Seq<(Name, Term)>, OutOfMemory>
    ensures { IfOk result (λ made. made ≡ values.now) }
{
    let mut made = Vec::with_capacity(alloc, values.len())?;
    for (name, value) in values {
        made.push((name.copy(alloc)?, value.copy(alloc)?))?;
    }
    Ok(Seq::from_vec(made))
}

/// Copies of the steps, in their order.
pub(crate) fn copy_steps(alloc: Global, steps: &[Step]) -> Result<Vec<Step>, OutOfMemory>
    ensures { IfOk result (λ made. made.items ≡ steps.now) }
{
    let mut made = Vec::with_capacity(alloc, steps.len())?;
    for step in steps {
        made.push(copy_step(alloc, step)?)?;
    }
    Ok(made)
}
