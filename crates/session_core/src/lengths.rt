//! How many bytes a claim has, by the lengths of its lines.

ghost use Rattle.std.specs.Prelude.{◌≡◌, ◌+◌, ◌++◌, ◌∷◌, ℕ, [], List, IfOk, length};
ghost use Rattle.clause_core.specs.declared.steps.Step.{Step as StepOf};
ghost use Rattle.spec_core.specs.Sig.{Sig};
ghost use Rattle.proof_script.specs.Ranges.{LineIsInRange};
ghost use Rattle.proof_script.specs.Steps.{step_line};
ghost use Rattle.proof_script.specs.Words.{line_text};
ghost use Rattle.session_core.specs.Lengths.{lengths_after, proved_line, step_length, steps_length};

use block_steps::copy_step;
use clause_core::{Block, Claim, Outcome, Step};
use proof_script::print_claim;
use spec_core::{Signature, append_decimal};
use std::alloc::Global;
use term_core::{Name, OutOfMemory, Seq};

/// The bytes of the first line of a claim without a name, on one node.
const NAMELESS_LINE: usize = 16;

/// The bytes of the first line of a claim beside the name and the number of nodes.
const OTHER_BYTES: usize = 15;

/// How many bytes the lines of the steps have of which these are the lengths, with the line of one
/// step more. A number past 64 bits counts as want of memory.
pub(crate) fn length_with(
    alloc: Global,
    sig: &Signature,
    lengths: &[usize],
    step: &Step,
) -> Result<usize, OutOfMemory>
    requires { LineIsInRange sig.now (step_line step.now) }
    ensures { IfOk result (λ total. (steps : List StepOf) →
        lengths.now ≡ lengths_after sig.now 0 steps →
        total ≡ steps_length sig.now (steps ++ step.now ∷ [])) }
{
    let before = length_so_far(lengths);
    let line = length_of_step(alloc, sig, step)?;
    let Some(total) = before.checked_add(line) else {
        return Err(OutOfMemory);
    };
    Ok(total)
}

/// How many bytes the line of the step has, with its newline.
fn length_of_step(alloc: Global, sig: &Signature, step: &Step) -> Result<usize, OutOfMemory>
    requires { LineIsInRange sig.now (step_line step.now) }
    ensures { IfOk result (λ bytes. bytes ≡ step_length sig.now step.now) }
{
    let mut steps = Seq::new(alloc);
    steps.push(copy_step(alloc, step)?)?;
    let claim = Claim {
        goal: Name::of(alloc, b"")?,
        outcome: Outcome::Proved(Block { steps }),
    };
    let text = print_claim(alloc, sig, &claim)?;
    Ok(text.len() - NAMELESS_LINE)
}

/// How many bytes the lines of the steps have of which these are the lengths.
fn length_so_far(lengths: &[usize]) -> usize
    ensures { (sig : Sig) (steps : List StepOf) → lengths.now ≡ lengths_after sig 0 steps →
        result ≡ steps_length sig steps }
{
    match lengths.last() {
        Some(length) => *length,
        None => 0,
    }
}

/// How many bytes the lines of a proved claim have, by the number of its nodes and the bytes of its
/// steps' lines. A number past 64 bits counts as want of memory.
pub(crate) fn length_of_claim(
    alloc: Global,
    name: &Name,
    nodes: usize,
    steps: usize,
) -> Result<usize, OutOfMemory>
    ensures { IfOk result (λ bytes. (sig : Sig) →
        bytes ≡ length (line_text sig (proved_line name.now nodes)) + steps) }
{
    let mut digits = Vec::new(alloc);
    append_decimal(nodes, &mut digits)?;
    let first = name
        .as_bytes()
        .len()
        .checked_add(digits.len())
        .ok_or(OutOfMemory)?;
    let first = first.checked_add(OTHER_BYTES).ok_or(OutOfMemory)?;
    first.checked_add(steps).ok_or(OutOfMemory)
}
