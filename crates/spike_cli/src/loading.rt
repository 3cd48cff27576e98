//! `load`: a generated text, its report in memory, and the report replayed.

ghost use Rattle.std.specs.Prelude.{◌≡◌, ◌≤◌, ℕ, List, IfOk};
ghost use Rattle.load_text.specs.LoadSpec.{load_spec};
ghost use Rattle.proof_script.specs.Texts.{IsReportText};
ghost use Rattle.acceptance.specs.Accepting.{IsAccepted};
ghost use Rattle.clause_core.specs.declared.reports.Report.{Report as ReportOf};
ghost use Rattle.spec_order.specs.Orders.{above_of, order_of};
ghost use Rattle.spike_cli.specs.Loads.{IsLoad};
ghost use Rattle.file_replies.specs.Stops.{Finishes};
ghost use Rattle.file_replies.specs.Reported.{HasReports};
ghost use Rattle.file_replies.specs.declared.statuses.Status.TheVariants.{Done};

use crate::laws::{one_ending, one_replay};
use crate::reporting::usual_report;
use accepted_spec::{Accepted, Refusal, specification};
use clause_core::Report;
use file_replies::{Status, Stop};
use io_core::{Sink, write_all};
use load_text::load_text;
use proof_script::one_report;
use replay_check::{Answer, replay};
use reply_lines::load_lines;
use report_reader::{ReportError, read_report};
use spec_admit::Admitted;
use spec_order::AnyOrder;
use std::alloc::Global;
use term_core::OutOfMemory;

/// Generates this many goals, proves them and replays the report, and writes how many are proved,
/// refuted and left open.
pub fn load<S: Sink>(alloc: Global, goals: u32, out: &mut S) -> Result<Status, Stop>
    requires some { 1 ≤ goals }
    requires few { goals ≤ 200 }
    ensures finishes { Finishes (S.written out.old) (S.written out.new)
        (S.faults out.old) (S.faults out.new)
        (λ text status. IsLoad goals text × (status ≡ Done)) (IsLoad goals) result }
    ensures writes { S.faults out.old ≤ S.faults out.new }
{
    let text = lines(alloc, goals)?;
    write_all(out, alloc, &text)?;
    Ok(Status::Done)
}

/// What is written.
fn lines(alloc: Global, goals: u32) -> Result<Vec<u8>, OutOfMemory>
    requires some { 1 ≤ goals }
    requires few { goals ≤ 200 }
    ensures { IfOk result (λ text. IsLoad goals text.items) }
{
    one_report();
    let accepted = generated(alloc, goals)?;
    let sink = usual_report(alloc, &accepted.admitted)?;
    let report = replayed(alloc, &accepted.admitted, sink.bytes())?;
    load_lines(alloc, goals, report.claims.as_slice())
}

/// The specification of the generated text.
fn generated(alloc: Global, goals: u32) -> Result<Accepted, OutOfMemory>
    requires some { 1 ≤ goals }
    requires few { goals ≤ 200 }
    ensures is { IfOk result (λ accepted. accepted.admitted.spec ≡ load_spec goals) }
    ensures ordered { IfOk result
        (λ accepted. accepted.admitted.order ≡ order_of accepted.admitted.spec) }
    ensures reported { IfOk result (λ accepted. HasReports accepted.admitted.spec) }
{
    one_ending();
    let text = load_text(alloc, goals)?;
    match specification(alloc, &text) {
        Ok(accepted) => Ok(accepted),
        Err(Refusal::OutOfMemory) => Err(OutOfMemory),
        Err(Refusal::Line(_)) => unreachable!(),
    }
}

/// The report of these bytes, which is read and replayed: it is one that is accepted.
fn replayed(
    alloc: Global,
    admitted: &Admitted<AnyOrder>,
    bytes: &[u8],
) -> Result<Report, OutOfMemory>
    requires ordered { admitted.now.order ≡ order_of admitted.now.spec }
    requires finished { (report : ReportOf) × IsReportText admitted.now.spec.sig bytes.now report
        × IsAccepted (above_of admitted.now.spec) admitted.now.spec report }
    ensures { IfOk result (IsReportText admitted.now.spec.sig bytes.now) }
{
    one_replay();
    let report = match read_report(alloc, &admitted.spec.sig, bytes) {
        Ok(report) => report,
        Err(ReportError::OutOfMemory) => return Err(OutOfMemory),
        Err(ReportError::Line { .. }) => unreachable!(),
    };
    match replay(alloc, admitted, &report)? {
        Answer::Yes => Ok(report),
        Answer::No { .. } => unreachable!(),
    }
}
