//! `YesText`: what is written if a report is accepted.

ghost use Rattle.std.specs.Prelude.{◌≡◌, ℕ, List, IfOk};
ghost use Rattle.spec_core.specs.declared.records.Spec.{Spec};
ghost use Rattle.spec_order.specs.Orders.{above_of, order_of};
ghost use Rattle.clause_core.specs.declared.reports.Report.{Report as ReportOf};
ghost use Rattle.acceptance.specs.Accepting.{IsAccepted};
ghost use Rattle.proof_script.specs.Texts.{IsReportText};
ghost use Rattle.file_replies.specs.Reported.{HasReports};

use clause_core::Report;
use spec_admit::Admitted;
use spec_order::AnyOrder;
use std::alloc::Global;
use term_core::OutOfMemory;

/// What is written if a report is accepted.
pub trait YesText {
    /// The texts for an accepted report on a specification.
    ghost is_text: { Self → Spec → ReportOf → List ℕ → Type 0 };

    /// The text for an accepted report.
    fn text(
        &self,
        alloc: Global,
        admitted: &Admitted<AnyOrder>,
        report: &Report,
    ) -> Result<Vec<u8>, OutOfMemory>
        requires ordered { admitted.now.order ≡ order_of admitted.now.spec }
        requires reported { HasReports admitted.now.spec }
        requires read { (bytes : List ℕ) × IsReportText admitted.now.spec.sig bytes report.now }
        requires accepted { IsAccepted (above_of admitted.now.spec) admitted.now.spec report.now }
        ensures { IfOk result (λ text. is_text self.now admitted.now.spec report.now text.items) };
}
