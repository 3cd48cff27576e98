//! `eval`: the term, and the lines of its value and cost.

ghost use Rattle.std.specs.Prelude.{◌≡◌, ◌≤◌, [], IfOk, codes};
ghost use Rattle.spec_core.specs.TermText.{SymbolsAreInRange};
ghost use Rattle.spec_core.specs.WellSorted.{IsWellSorted};
ghost use Rattle.clause_core.specs.Admitted.{IsAdmitted};
ghost use Rattle.spec_order.specs.Orders.{above_of};
ghost use Rattle.spec_core.specs.TermText.{term_text};
ghost use Rattle.spike_cli.specs.Evaluations.{IsEvaluation, IsEvaluationText, lines_with};
ghost use Rattle.spike_cli.specs.Evaluations.{spent_line as line_of_spent};
ghost use Rattle.file_replies.specs.Stops.{Finishes};
ghost use Rattle.accepted_spec.specs.Tellings.{IsLineOf};

use accepted_spec::{Refusal, ground_term};
use file_replies::{Ending, Status, Stop};
use ground_eval::{Eval, eval};
use io_core::{Sink, write_all};
use spec_core::{Signature, Spec};
use std::alloc::Global;
use term_core::{OutOfMemory, Term};

/// Writes what the evaluation of a term within this many rule uses gives.
pub fn evaluate<S: Sink>(
    alloc: Global,
    spec: &Spec,
    term: &[u8],
    steps: u32,
    out: &mut S,
) -> Result<Status, Stop>
    requires fine { IsWellSorted spec.now }
    requires admitted { IsAdmitted (above_of spec.now) spec.now }
    ensures finishes { Finishes (S.written out.old) (S.written out.new)
        (S.faults out.old) (S.faults out.new)
        (IsEvaluation spec.now term.now steps) (IsEvaluationText spec.now term.now steps) result }
    ensures writes { S.faults out.old ≤ S.faults out.new }
{
    let evaluation = evaluation_of(alloc, spec, term, steps)?;
    write_all(out, alloc, &evaluation.text)?;
    Ok(evaluation.status)
}

/// Evaluates the term that these bytes stand for.
fn evaluation_of(
    alloc: Global,
    spec: &Spec,
    bytes: &[u8],
    steps: u32,
) -> Result<Ending, OutOfMemory>
    requires fine { IsWellSorted spec.now }
    requires admitted { IsAdmitted (above_of spec.now) spec.now }
    ensures { IfOk result (λ e. IsEvaluation spec.now bytes.now steps e.text.items e.status) }
{
    let term = match ground_term(alloc, &spec.sig, bytes) {
        Ok(term) => term,
        Err(refusal) => return refused(refusal),
    };
    match eval(alloc, spec, &term, steps)? {
        Eval::Value { value, steps: cost } => Ok(Ending {
            text: value_lines(alloc, &spec.sig, &value, cost)?,
            status: Status::Done,
        }),
        Eval::Large { steps: cost } => Ok(Ending {
            text: large_lines(alloc, cost)?,
            status: Status::Done,
        }),
        Eval::Spent => Ok(Ending {
            text: spent_line(alloc, steps)?,
            status: Status::Open,
        }),
    }
}

/// What is written if the bytes stand for no term.
fn refused(refusal: Refusal) -> Result<Ending, OutOfMemory>
    ensures { IfOk result (λ e. IsLineOf refusal e.text.items × (e.status ≡ Status.Refused)) }
{
    match refusal {
        Refusal::Line(text) => Ok(Ending {
            text,
            status: Status::Refused,
        }),
        Refusal::OutOfMemory => Err(OutOfMemory),
    }
}

/// The lines of a value that is written, and its cost.
fn value_lines(
    alloc: Global,
    sig: &Signature,
    value: &Term,
    cost: u32,
) -> Result<Vec<u8>, OutOfMemory>
    requires { SymbolsAreInRange sig.now value.now }
    ensures { IfOk result (λ text. text.items ≡ lines_with (term_text sig.now [] value.now) cost) }
{
    let mut text = Vec::from_slice(alloc, b"value ")?;
    sig.print(alloc, &[], value, &mut text)?;
    text.extend_from_slice(b"\nsteps ")?;
    text.extend_from_slice(cost.to_string(alloc)?.as_bytes())?;
    text.push(b'\n')?;
    Ok(text)
}

/// The lines of a value that is too large to be written, and its cost.
fn large_lines(alloc: Global, cost: u32) -> Result<Vec<u8>, OutOfMemory>
    ensures { IfOk result (λ text. text.items ≡ lines_with (codes "large") cost) }
{
    let mut text = Vec::from_slice(alloc, b"value large\nsteps ")?;
    text.extend_from_slice(cost.to_string(alloc)?.as_bytes())?;
    text.push(b'\n')?;
    Ok(text)
}

/// The line of an evaluation that found no value within the steps.
fn spent_line(alloc: Global, steps: u32) -> Result<Vec<u8>, OutOfMemory>
    ensures { IfOk result (λ text. text.items ≡ line_of_spent steps) }
{
    let mut text = Vec::from_slice(alloc, b"spent ")?;
    text.extend_from_slice(steps.to_string(alloc)?.as_bytes())?;
    text.push(b'\n')?;
    Ok(text)
}
