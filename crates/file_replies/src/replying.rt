//! `reply_to_file`: a report that is read, replayed and replied to.

ghost use Rattle.std.specs.Prelude.{◌≡◌, ◌≤◌, ℕ, List, [], ◌∷◌, IfOk, codes};
ghost use Rattle.spec_order.specs.Orders.{order_of};
ghost use Rattle.reply_lines.specs.Lines.{no_line as no_line_text};
ghost use Rattle.report_reader.specs.declared.errors.ReportError.TheVariants.{Line};
ghost use Rattle.file_replies.specs.Replies.{IsFileReply, IsFileReplyText, IsReply, IsReplyText};
ghost use Rattle.file_replies.specs.Reported.{HasReports};
ghost use Rattle.file_replies.specs.Stops.{AsksFor, Finishes, FinishesReading};
ghost use Rattle.file_replies.specs.declared.statuses.Status.TheVariants.{No};

use crate::statuses::{Ending, Status};
use crate::stops::Stop;
use crate::yes_texts::YesText;
use io_core::{Files, ReadError, Sink, write_all};
use replay_check::{Answer, replay};
use reply_lines::{no_line, reason};
use report_reader::{ReportError, read_report};
use spec_admit::Admitted;
use spec_order::AnyOrder;
use std::alloc::Global;
use term_core::OutOfMemory;

/// The greatest number of bytes of a report.
pub const MAX_REPORT_BYTES: usize = 67_108_864;

/// Reads the report of a file, and writes the reply to it.
pub fn reply_to_file<Y: YesText, F: Files, S: Sink>(
    alloc: Global,
    admitted: &Admitted<AnyOrder>,
    yes: &Y,
    report: &str,
    files: &mut F,
    out: &mut S,
) -> Result<Status, Stop>
    requires ordered { admitted.now.order ≡ order_of admitted.now.spec }
    requires reported { HasReports admitted.now.spec }
    ensures finishes { FinishesReading (S.written out.old) (S.written out.new)
        (S.faults out.old) (S.faults out.new) (F.faults files.old) (F.faults files.new)
        (IsFileReply (Y.is_text yes.now) admitted.now.spec (F.held files.old report.now))
        (IsFileReplyText (Y.is_text yes.now) admitted.now.spec (F.held files.old report.now))
        result }
    ensures asked { AsksFor (report.now ∷ []) (F.asked files.old) (F.asked files.new) }
    ensures stays { (name : List ℕ) → F.held files.new name ≡ F.held files.old name }
    ensures reads { F.faults files.old ≤ F.faults files.new }
    ensures writes { S.faults out.old ≤ S.faults out.new }
{
    match files.read(alloc, report, MAX_REPORT_BYTES) {
        Ok(bytes) => reply_to_bytes(alloc, admitted, yes, &bytes, out),
        Err(ReadError::TooLong) => {
            write_all(out, alloc, b"refused report length\n")?;
            Ok(Status::Refused)
        }
        Err(ReadError::Failed) => Err(Stop::ReadFault),
        Err(ReadError::OutOfMemory) => Err(Stop::OutOfMemory),
    }
}

/// Writes the reply to the bytes of a report.
fn reply_to_bytes<Y: YesText, S: Sink>(
    alloc: Global,
    admitted: &Admitted<AnyOrder>,
    yes: &Y,
    bytes: &[u8],
    out: &mut S,
) -> Result<Status, Stop>
    requires ordered { admitted.now.order ≡ order_of admitted.now.spec }
    requires reported { HasReports admitted.now.spec }
    ensures finishes { Finishes (S.written out.old) (S.written out.new)
        (S.faults out.old) (S.faults out.new)
        (IsReply (Y.is_text yes.now) admitted.now.spec bytes.now)
        (IsReplyText (Y.is_text yes.now) admitted.now.spec bytes.now) result }
    ensures writes { S.faults out.old ≤ S.faults out.new }
{
    let reply = reply_to(alloc, admitted, yes, bytes)?;
    write_all(out, alloc, &reply.text)?;
    Ok(reply.status)
}

/// What is written for the bytes of a report.
fn reply_to<Y: YesText>(
    alloc: Global,
    admitted: &Admitted<AnyOrder>,
    yes: &Y,
    bytes: &[u8],
) -> Result<Ending, OutOfMemory>
    requires ordered { admitted.now.order ≡ order_of admitted.now.spec }
    requires reported { HasReports admitted.now.spec }
    ensures { IfOk result (λ reply. IsReply (Y.is_text yes.now) admitted.now.spec bytes.now
        reply.text.items reply.status) }
{
    let report = match read_report(alloc, &admitted.spec.sig, bytes) {
        Ok(report) => report,
        Err(error) => return reply_to_fault(alloc, error),
    };
    match replay(alloc, admitted, &report)? {
        Answer::Yes => Ok(Ending {
            text: yes.text(alloc, admitted, &report)?,
            status: Status::Done,
        }),
        Answer::No { line, why } => Ok(Ending {
            text: no_line(alloc, line, reason(why))?,
            status: Status::No,
        }),
    }
}

/// What is written for bytes that are no report.
fn reply_to_fault(alloc: Global, error: ReportError) -> Result<Ending, OutOfMemory>
    ensures { IfOk result (λ reply. (line : ℕ) × (error ≡ Line line)
        × (reply.text.items ≡ no_line_text line (codes "not a report")) × (reply.status ≡ No)) }
{
    match error {
        ReportError::Line { line } => Ok(Ending {
            text: no_line(alloc, line, b"not a report")?,
            status: Status::No,
        }),
        ReportError::OutOfMemory => Err(OutOfMemory),
    }
}
