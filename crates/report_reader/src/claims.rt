//! A claim with its lines.

ghost use Rattle.std.specs.Prelude.{◌≡◌, ◌≤◌, ◌+◌, [], ℕ, List, MatchResult, length};
ghost use Rattle.spec_core.specs.Declarations.{IsDeclared};
ghost use Rattle.clause_core.specs.declared.reports.Report.{Report as AnyReport};
ghost use Rattle.report_reader.specs.Answers.{TellsFault};
ghost use Rattle.report_reader.specs.Behind.{IsBehind, HasNoClaimLine};
ghost use Rattle.report_reader.specs.Lines.{IsNext};
ghost use Rattle.report_reader.specs.Stages.{behind_first, between, proving, refuting, report_size};
ghost use Rattle.report_reader.specs.Stages.{with_claim};

use crate::errors::ReportError;
use crate::first_lines::FirstLine;
use crate::lines::Lines;
use crate::values::read_value;
use clause_core::{Block, Claim, Outcome, Step};
use proof_script::{MOST_CLAIM_BYTES, StepLineError, read_step};
use spec_core::Signature;
use std::alloc::Global;
use term_core::{Name, Seq, Term};

/// The claim of this first line, and the lines after it. This many bytes were read where the claim
/// begins.
pub fn read_claim<'a>(
    alloc: Global,
    sig: &Signature,
    start: usize,
    first: FirstLine,
    at: Lines<'a>,
) -> Result<(Claim, Lines<'a>), ReportError>
    requires declared { IsDeclared sig.now }
    requires within { start ≤ at.read }
    ensures { (text : List ℕ) (report : AnyReport) → start ≡ report_size sig.now report
        → IsBehind sig.now text at.entry (behind_first report first) → MatchResult result
        (λ p. IsBehind sig.now text p.1 (between (with_claim report p.0)))
        (λ e. TellsFault sig.now text e) }
{
    match first {
        FirstLine::Proved { goal, nodes } => {
            let (steps, behind) = read_steps(alloc, sig, start, nodes, at)?;
            let outcome = Outcome::Proved(Block { steps });
            Ok((Claim { goal, outcome }, behind))
        }
        FirstLine::Refuted {
            goal,
            index,
            values,
        } => {
            let (values, behind) = read_values(alloc, sig, start, values, at)?;
            let outcome = Outcome::Refuted { index, values };
            Ok((Claim { goal, outcome }, behind))
        }
        FirstLine::Open { goal, budget } => {
            let outcome = Outcome::Open(budget);
            Ok((Claim { goal, outcome }, at))
        }
    }
}

/// As many steps of the claim that began there as it has nodes, and the lines after them.
fn read_steps<'a>(
    alloc: Global,
    sig: &Signature,
    start: usize,
    nodes: u32,
    at: Lines<'a>,
) -> Result<(Seq<Step>, Lines<'a>), ReportError>
    requires declared { IsDeclared sig.now }
    requires within { start ≤ at.read }
    ensures { (text : List ℕ) (report : AnyReport) (goal : List ℕ)
        → start ≡ report_size sig.now report
        → IsBehind sig.now text at.entry (proving report goal nodes []) → MatchResult result
        (λ p. IsBehind sig.now text p.1 (proving report goal nodes p.0) × (length p.0 ≡ nodes))
        (λ e. TellsFault sig.now text e) }
{
    let mut steps = Seq::new(alloc);
    let mut lines = at;
    for _node in 0..nodes {
        let (line, behind) = claim_line(lines, start)?;
        let step = match read_step(alloc, sig, line) {
            Ok(step) => step,
            Err(StepLineError::NotAStep) => return Err(lines.fault()),
            Err(StepLineError::OutOfMemory) => return Err(ReportError::OutOfMemory),
        };
        steps.push(step)?;
        lines = behind;
    }
    Ok((steps, lines))
}

/// This many values of the claim that began there, and the lines after them.
fn read_values<'a>(
    alloc: Global,
    sig: &Signature,
    start: usize,
    count: u32,
    at: Lines<'a>,
) -> Result<(Seq<(Name, Term)>, Lines<'a>), ReportError>
    requires declared { IsDeclared sig.now }
    requires within { start ≤ at.read }
    ensures { (text : List ℕ) (report : AnyReport) (goal : List ℕ) (index : ℕ)
        → start ≡ report_size sig.now report
        → IsBehind sig.now text at.entry (refuting report goal index count []) → MatchResult result
        (λ p. IsBehind sig.now text p.1 (refuting report goal index count p.0)
        × (length p.0 ≡ count))
        (λ e. TellsFault sig.now text e) }
{
    let mut values = Seq::new(alloc);
    let mut lines = at;
    for _value in 0..count {
        let (line, behind) = claim_line(lines, start)?;
        let Some(value) = read_value(alloc, sig, line)? else {
            return Err(lines.fault());
        };
        values.push(value)?;
        lines = behind;
    }
    Ok((values, lines))
}

/// The next line of the claim that began there, and the lines after it.
fn claim_line(at: Lines<'_>, start: usize) -> Result<(&[u8], Lines<'_>), ReportError>
    requires { start ≤ at.read }
    ensures { MatchResult result
        (λ p. IsNext at.entry p.0.now p.1 × (p.1.read ≤ start + 300000))
        (λ e. HasNoClaimLine at.entry start e) }
{
    let (line, behind) = at.next_line()?;
    if behind.read - start > MOST_CLAIM_BYTES {
        return Err(at.fault());
    }
    Ok((line, behind))
}
