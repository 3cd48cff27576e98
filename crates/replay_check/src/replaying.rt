//! `replay`: whether a report is accepted, or its first refusal.

ghost use Rattle.std.specs.Prelude.{IfOk};
ghost use Rattle.replay_check.specs.Tells.{Tells};

use crate::answers::{Answer, Stop};
use crate::claims::check_claims;
use clause_core::Report;
use soundness::accepted_are_true;
use spec_admit::Admitted;
use std::alloc::Global;
use term_core::OutOfMemory;
use term_order::TermOrder;

/// Whether the report is accepted for the admitted specification, or where and why it is first
/// refused. The claims are tested in order, and each step once, at the cost of the step, its node
/// and its children. The clause of a node is kept until its step is taken and no later step refers
/// to the node. A line whose number passes 64 bits is answered as want of memory.
pub fn replay<O: TermOrder>(
    alloc: Global,
    admitted: &Admitted<O>,
    report: &Report,
) -> Result<Answer, OutOfMemory>
    ensures { IfOk result (Tells (O.above admitted.now.order) admitted.now.spec report.now) }
{
    accepted_are_true(&admitted.order);
    match check_claims(alloc, admitted, report) {
        Ok(()) => Ok(Answer::Yes),
        Err(Stop::Refused { line, why }) => Ok(Answer::No { line, why }),
        Err(Stop::OutOfMemory) => Err(OutOfMemory),
    }
}
