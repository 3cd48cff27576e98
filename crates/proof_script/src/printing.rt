//! `print_report` and `print_claim`: the text of a report and of a claim.

ghost use Rattle.std.specs.Prelude.{◌≡◌, ◌++◌, ℕ, List, IfOk, OnOk, flat_map, map};
ghost use Rattle.std.specs.List.{AllByRecursion};
ghost use Rattle.proof_script.specs.Words.{line_text, lines_text};
ghost use Rattle.proof_script.specs.Steps.{step_line};
ghost use Rattle.proof_script.specs.Claims.{claim_text, claims_text, first_line, header_lines};
ghost use Rattle.proof_script.specs.Claims.{report_text, value_line};
ghost use Rattle.proof_script.specs.Ranges.{ClaimIsInRange, LineIsInRange, ReportIsInRange};

use crate::steps::append_step;
use crate::words::{Word, append_line};
use clause_core::{Block, Budget, Claim, Outcome, Report, Step};
use spec_core::Signature;
use std::alloc::Global;
use term_core::{Name, OutOfMemory, Seq, Term};

/// The text of a report. It is printed whatever the limits: it can be read back if they hold.
pub fn print_report(alloc: Global, sig: &Signature, report: &Report) -> Result<Vec<u8>, OutOfMemory>
    requires { ReportIsInRange sig.now report.now }
    ensures { IfOk result (λ made. made.items ≡ report_text sig.now report.now) }
{
    let mut text = Vec::new(alloc);
    append_header(alloc, sig, report.steps, &mut text)?;
    append_claims(alloc, sig, report.claims.as_slice(), &mut text)?;
    append_line(alloc, sig, b"done", &[], &mut text)?;
    Ok(text)
}

/// The first two lines of a report. `steps` is how many rule uses the evaluation of a side may
/// cost.
pub fn print_header(alloc: Global, sig: &Signature, steps: u32) -> Result<Vec<u8>, OutOfMemory>
    ensures { IfOk result (λ made. made.items ≡ lines_text sig.now (header_lines steps)) }
{
    let mut text = Vec::new(alloc);
    append_header(alloc, sig, steps, &mut text)?;
    Ok(text)
}

/// The lines of one claim.
pub fn print_claim(alloc: Global, sig: &Signature, claim: &Claim) -> Result<Vec<u8>, OutOfMemory>
    requires { ClaimIsInRange sig.now claim.now }
    ensures { IfOk result (λ made. made.items ≡ claim_text sig.now claim.now) }
{
    let mut text = Vec::new(alloc);
    append_claim(alloc, sig, claim, &mut text)?;
    Ok(text)
}

/// Appends the first two lines of a report.
fn append_header(
    alloc: Global,
    sig: &Signature,
    steps: u32,
    text: &mut Vec<u8>,
) -> Result<(), OutOfMemory>
    ensures { OnOk result
        (text.new.items ≡ text.old.items ++ lines_text sig.now (header_lines steps)) }
{
    append_line(alloc, sig, b"spike-report", &[Word::Fixed(b"1")], text)?;
    append_line(alloc, sig, b"steps", &[Word::Number(steps as usize)], text)
}

fn append_claims(
    alloc: Global,
    sig: &Signature,
    claims: &[Claim],
    text: &mut Vec<u8>,
) -> Result<(), OutOfMemory>
    requires { AllByRecursion (ClaimIsInRange sig.now) claims.now }
    ensures { OnOk result (text.new.items ≡ text.old.items ++ claims_text sig.now claims.now) }
{
    for claim in claims {
        append_claim(alloc, sig, claim, text)?;
    }
    Ok(())
}

fn append_claim(
    alloc: Global,
    sig: &Signature,
    claim: &Claim,
    text: &mut Vec<u8>,
) -> Result<(), OutOfMemory>
    requires { ClaimIsInRange sig.now claim.now }
    ensures { OnOk result (text.new.items ≡ text.old.items ++ claim_text sig.now claim.now) }
{
    let goal = &claim.goal;
    match &claim.outcome {
        Outcome::Proved(block) => {
            append_proved(alloc, sig, goal, block, text)?;
            append_steps(alloc, sig, block.steps.as_slice(), text)
        }
        Outcome::Refuted { index, values } => {
            append_refuted(alloc, sig, goal, *index, values, text)?;
            append_values(alloc, sig, values.as_slice(), text)
        }
        Outcome::Open(budget) => append_open(alloc, sig, goal, budget, text),
    }
}

/// Appends the first line of a proved claim.
fn append_proved(
    alloc: Global,
    sig: &Signature,
    goal: &Name,
    block: &Block,
    text: &mut Vec<u8>,
) -> Result<(), OutOfMemory>
    ensures { OnOk result (text.new.items ≡ text.old.items
        ++ line_text sig.now (first_line goal.now (Outcome.Proved block.now))) }
{
    let words = [
        Word::Name(goal),
        Word::Fixed(b"nodes"),
        Word::Number(block.steps.len()),
    ];
    append_line(alloc, sig, b"proved", &words, text)
}

/// Appends the first line of a refuted claim.
fn append_refuted(
    alloc: Global,
    sig: &Signature,
    goal: &Name,
    index: u32,
    values: &Seq<(Name, Term)>,
    text: &mut Vec<u8>,
) -> Result<(), OutOfMemory>
    ensures { OnOk result (text.new.items ≡ text.old.items
        ++ line_text sig.now (first_line goal.now (Outcome.Refuted index values.now))) }
{
    let words = [
        Word::Name(goal),
        Word::Fixed(b"index"),
        Word::Number(index as usize),
        Word::Fixed(b"with"),
        Word::Number(values.len()),
    ];
    append_line(alloc, sig, b"refuted", &words, text)
}

/// Appends the line of an open claim.
fn append_open(
    alloc: Global,
    sig: &Signature,
    goal: &Name,
    budget: &Budget,
    text: &mut Vec<u8>,
) -> Result<(), OutOfMemory>
    ensures { OnOk result (text.new.items ≡ text.old.items
        ++ line_text sig.now (first_line goal.now (Outcome.Open budget.now))) }
{
    let cut: &[u8] = if budget.cut { b"yes" } else { b"no" };
    let words = [
        Word::Name(goal),
        Word::Fixed(b"depth"),
        Word::Number(budget.depth as usize),
        Word::Fixed(b"tried"),
        Word::Number(budget.tried as usize),
        Word::Fixed(b"skipped"),
        Word::Number(budget.skipped as usize),
        Word::Fixed(b"cut"),
        Word::Fixed(cut),
        Word::Fixed(b"plain"),
        Word::Number(budget.plain as usize),
        Word::Fixed(b"nodes"),
        Word::Number(budget.nodes as usize),
    ];
    append_line(alloc, sig, b"open", &words, text)
}

/// Appends a line for each value.
fn append_values(
    alloc: Global,
    sig: &Signature,
    values: &[(Name, Term)],
    text: &mut Vec<u8>,
) -> Result<(), OutOfMemory>
    requires { AllByRecursion (LineIsInRange sig.now) (map value_line values.now) }
    ensures { OnOk result (text.new.items ≡ text.old.items
        ++ lines_text sig.now (map value_line values.now)) }
{
    for (name, value) in values {
        let words = [Word::Fixed(b"="), Word::Term(value)];
        append_line(alloc, sig, name.as_bytes(), &words, text)?;
    }
    Ok(())
}

/// Appends a line for each step.
fn append_steps(
    alloc: Global,
    sig: &Signature,
    steps: &[Step],
    text: &mut Vec<u8>,
) -> Result<(), OutOfMemory>
    requires { AllByRecursion (LineIsInRange sig.now) (map step_line steps.now) }
    ensures { OnOk result (text.new.items ≡ text.old.items
        ++ lines_text sig.now (map step_line steps.now)) }
{
    for step in steps {
        append_step(alloc, sig, step, text)?;
    }
    Ok(())
}
