//! The report of `prove` on an accepted file, with which explorations are compared.

ghost use Rattle.std.specs.Prelude.{◌≡◌, IfOk};
ghost use Rattle.spec_order.specs.Orders.{order_of};
ghost use Rattle.file_replies.specs.Reported.{HasReports};
ghost use Rattle.explore_cli.specs.Bases.{IsBase};

use clause_core::Report;
use proof_script::{one_fault, one_report};
use report_reader::{ReportError, read_report};
use spec_admit::Admitted;
use spec_order::AnyOrder;
use spike_cli::usual_report;
use std::alloc::Global;
use term_core::OutOfMemory;

/// The report that `prove` writes if no word gives it a number.
#[derive(Drop)]
pub struct Base {
    pub text: Vec<u8>,
    pub report: Report,
}

/// The report that `prove` writes on a specification.
pub fn base_of(alloc: Global, admitted: &Admitted<AnyOrder>) -> Result<Base, OutOfMemory>
    requires ordered { admitted.now.order ≡ order_of admitted.now.spec }
    requires reported { HasReports admitted.now.spec }
    ensures { IfOk result (λ base. IsBase admitted.now.spec base.text.items base.report) }
{
    one_report();
    one_fault();
    let sink = usual_report(alloc, admitted)?;
    let text = Vec::from_slice(alloc, sink.bytes())?;
    match read_report(alloc, &admitted.spec.sig, &text) {
        Ok(report) => Ok(Base { text, report }),
        Err(ReportError::OutOfMemory) => Err(OutOfMemory),
        Err(ReportError::Line { .. }) => unreachable!(),
    }
}
