//! The cut by a given closing step.

ghost use Rattle.std.specs.Prelude.{◌≡◌, ◌<◌, ◌≤◌, List, IfOk, MatchOption, length, take};
ghost use Rattle.clause_core.specs.declared.steps.Step.{Step as StepOf};
ghost use Rattle.acceptance.specs.Accepting.{IsAccepted};
ghost use Rattle.acceptance.specs.AllowedAnswers.{IsWholeBlock};
ghost use Rattle.acceptance.specs.Strict.{first_child};
ghost use Rattle.claimed_goals.specs.Tracking.{AreProved};
ghost use Rattle.script_trim.specs.Cutting.{ClosesAt};
ghost use Rattle.script_trim.specs.Kept.{IsKept};
ghost use Rattle.script_trim.specs.Placing.{IsPlaced};
ghost use Rattle.script_trim.specs.Trying.{AreLemmas};

use crate::blocks::KeptBlock;
use crate::closing::is_closing;
use crate::cutting::rest_of;
use crate::fitting::fit_of;
use crate::lemmas::Lemmas;
use crate::placing::{ClaimAt, NodeAt};
use clause_core::{Children, Outcome, Report, Step};
use spec_admit::Admitted;
use std::alloc::Global;
use term_core::OutOfMemory;
use term_order::TermOrder;

/// The goals that the first claims of the report prove.
pub(crate) fn lemmas_before<O: TermOrder>(
    alloc: Global,
    admitted: &Admitted<O>,
    report: &Report,
    count: usize,
) -> Result<Lemmas, OutOfMemory>
    requires accepted { IsAccepted (O.above admitted.now.order) admitted.now.spec report.now }
    requires count { count ≤ length report.now.claims }
    ensures clauses { IfOk result (AreLemmas admitted.now.spec) }
    ensures proved { IfOk result (λ lemmas.
        AreProved admitted.now.spec (take count report.now.claims) lemmas.numbers.items) }
{
    let claims = report.claims.as_slice();
    let mut lemmas = Lemmas::new(alloc, &admitted.spec)?;
    for claim in &claims[..count] {
        let Some((number, _goal)) = admitted.spec.goal_named(&claim.goal) else {
            unreachable!();
        };
        if let Outcome::Proved(_) = &claim.outcome {
            lemmas.add(number as u32)?;
        }
    }
    Ok(lemmas)
}

/// What is left of the block if the step closes the node, or none if it isn't a closing step
/// or can't close it.
pub(crate) fn rest_by<O: TermOrder>(
    alloc: Global,
    admitted: &Admitted<O>,
    place: &ClaimAt,
    block: &KeptBlock,
    node: usize,
    step: &Step,
) -> Result<Option<Vec<Step>>, OutOfMemory>
    requires placed { IsPlaced (O.above admitted.now.order) admitted.now.spec place.now }
    requires kept { IsKept (O.above admitted.now.order) admitted.now.spec place.now.report.now
        place.now.number block.now }
    requires there { node < length block.now.steps.items }
    ensures { IfOk result (λ rest. (kept : IsKept (O.above admitted.now.order) admitted.now.spec
        place.now.report.now place.now.number block.now) → MatchOption rest
        ((others : List StepOf) → ClosesAt (O.above admitted.now.order) admitted.now.spec
        place.now.report.now place.now.number block.now kept node step.now others → ⊥)
        (λ steps. ClosesAt (O.above admitted.now.order) admitted.now.spec place.now.report.now
        place.now.number block.now kept node step.now steps.items)) }
{
    clause_core::one_relation(&admitted.order);
    clause_core::tidying_laws();
    descent::children_are_sorted(&admitted.order);
    let nodes = block.nodes.as_slice();
    if !is_closing(alloc, &admitted.spec, nodes, &nodes[node].clause, step)? {
        return Ok(None);
    }
    let links = block.links.as_slice();
    let before = nodes_before(links, node);
    let at = NodeAt {
        number: node,
        before,
        alone: false,
    };
    match fit_of(alloc, admitted, place.lemmas, nodes, at, step)? {
        Some(fit) => rest_of(alloc, admitted, place, block, node, &fit),
        None => Ok(None),
    }
}

/// How many nodes the steps before this node's make, with the first one.
fn nodes_before(links: &[Children], node: usize) -> usize
    requires whole { IsWholeBlock links.now }
    requires there { node < length links.now }
    ensures { result ≡ first_child links.now node }
{
    let mut before = 1;
    for number in 0..node {
        before += links[number].clauses.len();
    }
    before
}
