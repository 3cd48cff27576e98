//! The status that a report gives.

ghost use Rattle.std.specs.Prelude.{◌↔◌, IsTrue};
ghost use Rattle.explore_cli.specs.Statuses.{IsStatusOf, ProvesAll, Refutes, RefutesOne};

use clause_core::{Claim, Outcome, Report};
use explorations::is_proved;
use file_replies::Status;
use spec_core::Spec;

/// The status after a report on a specification.
pub fn status_of(spec: &Spec, report: &Report) -> Status
    ensures { IsStatusOf spec.now report.now result }
{
    if refutes_one(report) {
        Status::Refuted
    } else if proves_all(spec, report) {
        Status::Done
    } else {
        Status::Open
    }
}

/// Whether a goal is refuted.
fn refutes_one(report: &Report) -> bool
    ensures { IsTrue result ↔ RefutesOne report.now }
{
    report.claims.as_slice().iter().any(|claim| refutes(claim))
}

fn refutes(claim: &Claim) -> bool
    ensures { IsTrue result ↔ Refutes claim.now }
{
    matches!(claim.outcome, Outcome::Refuted { .. })
}

/// Whether each goal is proved.
fn proves_all(spec: &Spec, report: &Report) -> bool
    ensures { IsTrue result ↔ ProvesAll spec.now report.now }
{
    let claims = report.claims.as_slice();
    spec.goals
        .as_slice()
        .iter()
        .all(|goal| is_proved(claims, &goal.name))
}
