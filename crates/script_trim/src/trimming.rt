//! `cut` and `trim`: one cut, and the report to which first cuts lead.

ghost use Rattle.std.specs.Prelude.{◌<◌, IfOk, length};
ghost use Rattle.acceptance.specs.Accepting.{IsAccepted};
ghost use Rattle.script_trim.specs.Trimmed.{LeadsTo, ProvedClaim, TellsCut, Trims};

use crate::claims::trimmed_claims;
use crate::given_cuts::{lemmas_before, rest_by};
use crate::kept_blocks::kept_block;
use crate::laws::cuts_trim;
use crate::placing::ClaimAt;
use clause_core::{Block, Outcome, Report, Step};
use spec_admit::Admitted;
use std::alloc::Global;
use term_core::{OutOfMemory, Seq};
use term_order::TermOrder;

/// The steps that are left of a proved claim if the closing step closes the node, or none if
/// the step isn't a closing step or could not close the node.
pub fn cut<O: TermOrder>(
    alloc: Global,
    admitted: &Admitted<O>,
    report: &Report,
    claim: u32,
    node: u32,
    step: &Step,
) -> Result<Option<Block>, OutOfMemory>
    requires accepted { IsAccepted (O.above admitted.now.order) admitted.now.spec report.now }
    requires there { (c : ProvedClaim (O.above admitted.now.order) admitted.now.spec report.now
        claim)
        × (node < length c.steps) }
    ensures { IfOk result (TellsCut (O.above admitted.now.order) admitted.now.spec report.now claim
        node step.now) }
{
    let number = claim as usize;
    let lemmas = lemmas_before(alloc, admitted, report, number)?;
    let place = ClaimAt {
        report,
        number,
        lemmas: &lemmas,
    };
    let Some(claim) = report.claims.as_slice().get(number) else {
        unreachable!();
    };
    let Some((_number, goal)) = admitted.spec.goal_named(&claim.goal) else {
        unreachable!();
    };
    let Outcome::Proved(proof) = &claim.outcome else {
        unreachable!();
    };
    let block = kept_block(alloc, admitted, &place, goal, proof.steps.as_slice())?;
    let rest = rest_by(alloc, admitted, &place, &block, node as usize, step)?;
    match rest {
        Some(steps) => {
            let steps = Seq::from_vec(steps);
            Ok(Some(Block { steps }))
        }
        None => Ok(None),
    }
}

/// The report that trims the given one: cuts are made one after the other, each the first that can
/// be made, until no node with children could be closed.
pub fn trim<O: TermOrder>(
    alloc: Global,
    admitted: &Admitted<O>,
    report: &Report,
) -> Result<Report, OutOfMemory>
    requires { IsAccepted (O.above admitted.now.order) admitted.now.spec report.now }
    ensures leads { IfOk result
        (LeadsTo (O.above admitted.now.order) admitted.now.spec report.now) }
    ensures trims { IfOk result
        (Trims (O.above admitted.now.order) admitted.now.spec report.now) }
{
    cuts_trim(&admitted.order);
    let claims = trimmed_claims(alloc, admitted, report)?;
    let claims = Seq::from_vec(claims);
    Ok(Report {
        steps: report.steps,
        claims,
    })
}
