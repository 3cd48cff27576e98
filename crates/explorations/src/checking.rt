//! `checked`: the exploration that two texts are.

ghost use Rattle.std.specs.Prelude.{◌↔◌, IfOk, IsTrue};
ghost use Rattle.explorations.specs.Answers.{Checks, ProvesEnough};

use crate::proving::{further_are_proved, stay_proved};
use crate::reports::accepted_report;
use crate::texts::accepted_text;
use accepted_spec::Accepted;
use added_goals::adds_goals;
use clause_core::Report;
use proof_script::one_report;
use sort_check::one_specification;
use spec_core::Spec;
use spec_grammar::one_reading;
use std::alloc::Global;
use term_core::OutOfMemory;

/// A text with further goals and a report on it, each as its bytes and as what they are.
#[derive(Drop)]
pub struct Exploration {
    pub text: Vec<u8>,
    pub accepted: Accepted,
    pub report: Report,
    pub report_text: Vec<u8>,
}

/// The exploration that these two texts are for a specification and the report on it, or `None` if
/// they are none.
pub fn checked(
    alloc: Global,
    old: &Spec,
    base: &Report,
    text: Vec<u8>,
    report_text: Vec<u8>,
) -> Result<Option<Exploration>, OutOfMemory>
    ensures { IfOk result (Checks old.now base.now text.items report_text.items) }
{
    one_reading();
    one_specification();
    one_report();
    let Some(accepted) = accepted_text(alloc, &text)? else {
        return Ok(None);
    };
    if !adds_goals(old, accepted.spec(), &accepted.raw) {
        return Ok(None);
    }
    let Some(report) = accepted_report(alloc, &accepted.admitted, &report_text)? else {
        return Ok(None);
    };
    if !proves_enough(old, base, accepted.spec(), &report) {
        return Ok(None);
    }
    Ok(Some(Exploration {
        text,
        accepted,
        report,
        report_text,
    }))
}

/// Whether the report proves each further goal of the new specification, and what the base report
/// proves.
fn proves_enough(old: &Spec, base: &Report, new: &Spec, report: &Report) -> bool
    ensures { IsTrue result ↔ ProvesEnough old.now base.now new.now report.now }
{
    let claims = report.claims.as_slice();
    further_are_proved(old.goals.as_slice(), new.goals.as_slice(), claims)
        && stay_proved(base.claims.as_slice(), claims)
}
