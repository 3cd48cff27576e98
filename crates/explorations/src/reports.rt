//! The report of an exploration, replayed.

ghost use Rattle.std.specs.Prelude.{◌≡◌, IfOk};
ghost use Rattle.spec_order.specs.Orders.{order_of};
ghost use Rattle.explorations.specs.Answers.{AcceptsReport};

use acceptance::one_verdict;
use clause_core::Report;
use proof_script::{one_fault, one_report};
use replay_check::{Answer, replay};
use report_reader::{ReportError, read_report};
use spec_admit::Admitted;
use spec_order::AnyOrder;
use std::alloc::Global;
use term_core::OutOfMemory;

/// The report whose text the bytes are, if it is accepted.
pub(crate) fn accepted_report(
    alloc: Global,
    admitted: &Admitted<AnyOrder>,
    bytes: &[u8],
) -> Result<Option<Report>, OutOfMemory>
    requires { admitted.now.order ≡ order_of admitted.now.spec }
    ensures { IfOk result (AcceptsReport admitted.now.spec bytes.now) }
{
    one_report();
    one_fault();
    one_verdict::<AnyOrder>();
    let report = match read_report(alloc, &admitted.spec.sig, bytes) {
        Ok(report) => report,
        Err(ReportError::Line { .. }) => return Ok(None),
        Err(ReportError::OutOfMemory) => return Err(OutOfMemory),
    };
    match replay(alloc, admitted, &report)? {
        Answer::Yes => Ok(Some(report)),
        Answer::No { .. } => Ok(None),
    }
}
