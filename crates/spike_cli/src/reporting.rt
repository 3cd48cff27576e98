//! `prove` and `refute`: a report, claim by claim.

ghost use Rattle.std.specs.Prelude.{◌≡◌, ◌≤◌, ◌++◌, Some, IfOk, OnOk, slice_get};
ghost use Rattle.spec_order.specs.Orders.{order_of};
ghost use Rattle.spike_cli.specs.Claims.{number_proved};
ghost use Rattle.spike_cli.specs.Lemmas.{AreLemmas};
ghost use Rattle.spike_cli.specs.Loads.{SomeReport};
ghost use Rattle.spike_cli.specs.Reports.{BeginsReport, IsReport, search_alone as search_alone_of};
ghost use Rattle.file_replies.specs.Stops.{Finishes};
ghost use Rattle.spike_cli.specs.Stops.{WritesHeader, WritesClaim, joined};
ghost use Rattle.spike_cli.specs.Within.{AreWithin};
ghost use Rattle.file_replies.specs.Reported.{HasReports};

use crate::claims::{NumberedGoal, claim_on};
use clause_core::{Claim, Outcome};
use command_line::{ProofBounds, SearchBounds};
use file_replies::{Status, Stop};
use io_core::{Sink, SureSink, write_all};
use plain_search::plain_blocks_stand;
use proof_script::{print_claim, print_header};
use routine_proof::{proves_behind_claims, routine_blocks_stand};
use soundness::accepted_are_true;
use spec_admit::Admitted;
use spec_core::Signature;
use spec_order::AnyOrder;
use std::alloc::Global;
use term_core::OutOfMemory;

/// A search for counterexamples alone.
pub fn search_alone(search: SearchBounds) -> ProofBounds
    ensures { result ≡ search_alone_of search }
{
    ProofBounds {
        search,
        plain: 0,
        nodes: 0,
    }
}

/// The report of the goals with the usual bounds, in memory.
pub fn usual_report(alloc: Global, admitted: &Admitted<AnyOrder>) -> Result<SureSink, OutOfMemory>
    requires ordered { admitted.now.order ≡ order_of admitted.now.spec }
    requires reported { HasReports admitted.now.spec }
    ensures { IfOk result (SomeReport admitted.now.spec) }
{
    let mut sink = SureSink::new(alloc);
    match write_report(alloc, admitted, ProofBounds::usual(), &mut sink) {
        Ok(_) => Ok(sink),
        Err(Stop::OutOfMemory) => Err(OutOfMemory),
        Err(_) => unreachable!(),
    }
}

/// Writes the report of the goals, each claim as soon as it is there.
pub fn write_report<S: Sink>(
    alloc: Global,
    admitted: &Admitted<AnyOrder>,
    bounds: ProofBounds,
    out: &mut S,
) -> Result<Status, Stop>
    requires ordered { admitted.now.order ≡ order_of admitted.now.spec }
    requires reported { HasReports admitted.now.spec }
    requires within { AreWithin bounds }
    ensures finishes { Finishes (S.written out.old) (S.written out.new)
        (S.faults out.old) (S.faults out.new)
        (IsReport bounds admitted.now.spec) (BeginsReport bounds admitted.now.spec) result }
    ensures writes { S.faults out.old ≤ S.faults out.new }
{
    let Admitted { spec, order } = admitted;
    plain_blocks_stand(order);
    routine_blocks_stand(order);
    proves_behind_claims(order);
    accepted_are_true(order);
    write_header(alloc, &spec.sig, bounds.search.steps, out)?;
    let mut status = Status::Done;
    let mut proved = Vec::new(alloc);
    for (number, goal) in spec.goals.as_slice().iter().enumerate() {
        let number = number as u32;
        let goal = NumberedGoal { number, goal };
        let claim = write_claim(alloc, admitted, goal, bounds, &proved, out)?;
        status = with_claim(status, &claim.outcome);
        add_proved(&mut proved, number, &claim.outcome)?;
    }
    write_all(out, alloc, b"done\n")?;
    Ok(status)
}

/// Writes the first two lines of a report.
fn write_header<S: Sink>(
    alloc: Global,
    sig: &Signature,
    steps: u32,
    out: &mut S,
) -> Result<(), Stop>
    ensures header { WritesHeader (S.written out.old) (S.written out.new)
        (S.faults out.old) (S.faults out.new) sig.now steps result }
    ensures writes { S.faults out.old ≤ S.faults out.new }
{
    let text = print_header(alloc, sig, steps)?;
    write_all(out, alloc, &text)?;
    Ok(())
}

/// Writes the claim on a goal of the specification, with the goals of these numbers as lemmas.
fn write_claim<S: Sink>(
    alloc: Global,
    admitted: &Admitted<AnyOrder>,
    goal: NumberedGoal<'_>,
    bounds: ProofBounds,
    lemmas: &[u32],
    out: &mut S,
) -> Result<Claim, Stop>
    requires ordered { admitted.now.order ≡ order_of admitted.now.spec }
    requires reported { HasReports admitted.now.spec }
    requires within { AreWithin bounds }
    requires listed { slice_get admitted.now.spec.goals goal.number ≡ Some goal.goal.now }
    requires lemmas { AreLemmas bounds.search.steps admitted.now.spec goal.goal.now lemmas.now }
    ensures claim { WritesClaim (S.written out.old) (S.written out.new)
        (S.faults out.old) (S.faults out.new) bounds admitted.now.spec lemmas.now
        goal.entry.goal.now result }
    ensures writes { S.faults out.old ≤ S.faults out.new }
{
    plain_blocks_stand(&admitted.order);
    routine_blocks_stand(&admitted.order);
    let claim = claim_on(alloc, admitted, goal, bounds, lemmas)?;
    let text = print_claim(alloc, &admitted.spec.sig, &claim)?;
    write_all(out, alloc, &text)?;
    Ok(claim)
}

/// The status after one claim more.
fn with_claim(status: Status, outcome: &Outcome) -> Status
    ensures { result ≡ joined status outcome.now }
{
    match (status, outcome) {
        (Status::Refuted, _) | (_, Outcome::Refuted { .. }) => Status::Refuted,
        (_, Outcome::Proved(_)) => status,
        (_, Outcome::Open(_)) => Status::Open,
    }
}

/// Adds the number of a goal if its claim proves it.
pub fn add_proved(proved: &mut Vec<u32>, number: u32, outcome: &Outcome) -> Result<(), OutOfMemory>
    ensures { OnOk result (proved.new.items ≡
        proved.old.items ++ number_proved number outcome.now) }
{
    if let Outcome::Proved(_) = outcome {
        proved.push(number)?;
    }
    Ok(())
}
