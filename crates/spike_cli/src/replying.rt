//! `replay` and `trim`: the second file, and what is written of it.

ghost use Rattle.std.specs.Prelude.{◌≡◌, ℕ, List, IfOk};
ghost use Rattle.spec_order.specs.Orders.{above_of, order_of};
ghost use Rattle.acceptance.specs.Accepting.{IsAccepted};
ghost use Rattle.proof_script.specs.Texts.{IsReportText};
ghost use Rattle.file_replies.specs.Reported.{HasReports};
ghost use Rattle.spike_cli.specs.Trims.{IsTrimmedText};

use clause_core::Report;
use file_replies::YesText;
use proof_script::print_report;
use reply_lines::yes_line;
use script_trim::{trim, trimmed_reports_stand};
use soundness::accepted_are_true;
use spec_admit::Admitted;
use spec_order::AnyOrder;
use std::alloc::Global;
use term_core::OutOfMemory;

/// What is written if a report is accepted.
#[derive(Clone, Copy, Debug, PartialEq, Eq)]
pub enum Yes {
    /// How many claims of each kind it has.
    Counts,
    /// The report that trims it.
    Trimmed,
}

impl YesText for Yes {
    ghost use Rattle.spike_cli.specs.Replies.{IsYesText};

    ghost is_text = { IsYesText };

    fn text(
        &self,
        alloc: Global,
        admitted: &Admitted<AnyOrder>,
        report: &Report,
    ) -> Result<Vec<u8>, OutOfMemory> {
        match self {
            Yes::Counts => yes_line(alloc, report.claims.as_slice()),
            Yes::Trimmed => trimmed_text(alloc, admitted, report),
        }
    }
}

/// The text of the report that trims an accepted one.
fn trimmed_text(
    alloc: Global,
    admitted: &Admitted<AnyOrder>,
    report: &Report,
) -> Result<Vec<u8>, OutOfMemory>
    requires ordered { admitted.now.order ≡ order_of admitted.now.spec }
    requires reported { HasReports admitted.now.spec }
    requires read { (bytes : List ℕ) × IsReportText admitted.now.spec.sig bytes report.now }
    requires accepted { IsAccepted (above_of admitted.now.spec) admitted.now.spec report.now }
    ensures { IfOk result (λ text. IsTrimmedText admitted.now.spec report.now text.items) }
{
    trimmed_reports_stand(&admitted.order);
    accepted_are_true(&admitted.order);
    let trimmed = trim(alloc, admitted, report)?;
    print_report(alloc, &admitted.spec.sig, &trimmed)
}
