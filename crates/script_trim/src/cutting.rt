//! Whether a closing step could close a node, and the block that is left.

ghost use Rattle.std.specs.Prelude.{◌≡◌, ◌↔◌, ℕ, ◌<◌, ◌≤◌, List, Some, IfOk, IsTrue, MatchOption};
ghost use Rattle.std.specs.Prelude.{length, map, slice_get, slice_set};
ghost use Rattle.std.specs.List.{AllByRecursion};
ghost use Rattle.clause_core.specs.declared.reports.Claim.{Claim as ClaimOf};
ghost use Rattle.clause_core.specs.declared.steps.Step.{Step as StepOf};
ghost use Rattle.acceptance.specs.AllowedAnswers.{IsWholeBlock};
ghost use Rattle.block_links.specs.Links.{links_of};
ghost use Rattle.proof_script.specs.Claims.{claim_text};
ghost use Rattle.proof_script.specs.Ranges.{ClaimIsInRange};
ghost use Rattle.script_trim.specs.Cut.{renumbered, staying, RefersToStaying};
ghost use Rattle.script_trim.specs.Cutting.{ClosesAt, FitsAt, IsCuttable, IsLeft};
ghost use Rattle.script_trim.specs.Flags.{flag_of, AreNewNumbers, RefersWithin};
ghost use Rattle.script_trim.specs.Kept.{IsKept};
ghost use Rattle.script_trim.specs.Made.{cut_made};
ghost use Rattle.script_trim.specs.Trimmed.{proves};

use crate::blocks::{Fit, KeptBlock, NodeCut};
use crate::cut_links::{are_allowed, cut_links, refers_to_itself};
use crate::flags::{
    keep, new_numbers, refers_to_staying, staying_nodes, with_new_number, with_other,
};
use crate::placing::ClaimAt;
use crate::text_bounds::bytes_with;
use block_steps::copy_step;
use clause_core::{Block, Children, Claim, Outcome, Report, Step};
use proof_script::{MOST_CLAIM_BYTES, print_claim};
use spec_admit::Admitted;
use spec_core::Signature;
use std::alloc::Global;
use term_core::{Name, OutOfMemory, Seq};
use term_order::TermOrder;

/// What is left of the block of a claim if the closing step, which is defined at the node,
/// closes it, or none if it can't: a step that stays refers to what is taken out, something
/// isn't allowed by the links that are left, or the text is too long. No step is taken again.
pub(crate) fn rest_of<O: TermOrder>(
    alloc: Global,
    admitted: &Admitted<O>,
    place: &ClaimAt,
    block: &KeptBlock,
    node: usize,
    fit: &Fit,
) -> Result<Option<Vec<Step>>, OutOfMemory>
    requires kept { IsKept (O.above admitted.now.order) admitted.now.spec place.now.report.now
        place.now.number block.now }
    requires node { node < length block.now.steps.items }
    requires fits { (kept : IsKept (O.above admitted.now.order) admitted.now.spec
        place.now.report.now place.now.number block.now) →
        FitsAt (O.above admitted.now.order) admitted.now.spec place.now.report.now place.now.number
        block.now kept node fit.now }
    ensures { IfOk result (λ rest. (kept : IsKept (O.above admitted.now.order) admitted.now.spec
        place.now.report.now place.now.number block.now) → MatchOption rest
        ((others : List StepOf) → ClosesAt (O.above admitted.now.order) admitted.now.spec
        place.now.report.now place.now.number block.now kept node fit.now.step others → ⊥)
        (λ steps. ClosesAt (O.above admitted.now.order) admitted.now.spec place.now.report.now
        place.now.number block.now kept node fit.now.step steps.items)) }
{
    clause_core::one_relation(&admitted.order);
    let steps = block.steps.as_slice();
    let links = block.links.as_slice();
    if refers_to_itself(fit.made.refs.as_slice(), node) {
        return Ok(None);
    }
    let stays = staying_nodes(alloc, links, node)?;
    let stays = stays.as_slice();
    if !all_refer_to_staying(steps, node, &fit.step, stays) {
        return Ok(None);
    }
    let numbers = new_numbers(alloc, stays)?;
    let numbers = numbers.as_slice();
    if !are_allowed(alloc, links, node, &fit.made, stays, numbers)? {
        return Ok(None);
    }
    let rest = rest_steps(alloc, steps, node, &fit.step, stays, numbers)?;
    let name = name_at(place.report, place.number);
    let bytes = bytes_with(alloc, &admitted.spec.sig, name, block.bytes, &fit.step)?;
    if_short(alloc, &admitted.spec.sig, name, rest, bytes)
}

/// The name of the goal that the claim with this number is on.
fn name_at(report: &Report, number: usize) -> &Name
    requires { number < length report.now.claims }
    ensures { (c : ClaimOf) → slice_get report.now.claims number ≡ Some c → result.now ≡ c.goal }
{
    match report.claims.as_slice().get(number) {
        Some(claim) => &claim.goal,
        None => unreachable!(),
    }
}

/// Whether the steps that stay refer to nodes that stay, if another step closes the node.
fn all_refer_to_staying(steps: &[Step], node: usize, closing: &Step, stays: &[bool]) -> bool
    requires { length steps.now ≡ length stays.now }
    ensures { IsTrue result ↔ AllByRecursion (RefersToStaying (flag_of stays.now))
        (staying (flag_of stays.now) 0 (slice_set steps.now node closing.now)) }
{
    for number in 0..steps.len() {
        if !stays[number] {
            continue;
        }
        let step = with_other(steps, node, closing, number);
        if !refers_to_staying(step, stays) {
            return false;
        }
    }
    true
}

/// The steps that stay, with the nodes that they refer to under their new numbers, if another
/// step closes the node.
fn rest_steps(
    alloc: Global,
    steps: &[Step],
    node: usize,
    closing: &Step,
    stays: &[bool],
    numbers: &[u32],
) -> Result<Vec<Step>, OutOfMemory>
    requires long { length steps.now ≡ length stays.now }
    requires numbers { AreNewNumbers stays.now numbers.now }
    requires refer { AllByRecursion (RefersToStaying (flag_of stays.now))
        (staying (flag_of stays.now) 0 (slice_set steps.now node closing.now)) }
    ensures { IfOk result (λ rest. rest.items ≡ map (renumbered (flag_of stays.now))
        (staying (flag_of stays.now) 0 (slice_set steps.now node closing.now))) }
{
    let mut rest = Vec::new(alloc);
    for number in 0..steps.len() {
        if !stays[number] {
            continue;
        }
        let step = copy_step(alloc, with_other(steps, node, closing, number))?;
        rest.push(with_new_number(step, stays, numbers))?;
    }
    Ok(rest)
}

/// The steps, if the claim that they prove this goal isn't too long for a report. Its text has
/// at most this many bytes; it is printed only if these are too many.
fn if_short(
    alloc: Global,
    sig: &Signature,
    name: &Name,
    steps: Vec<Step>,
    bytes: usize,
) -> Result<Option<Vec<Step>>, OutOfMemory>
    requires range { ClaimIsInRange sig.now (proves name.now steps.items) }
    requires bound { length (claim_text sig.now (proves name.now steps.items)) ≤ bytes }
    ensures { IfOk result (λ kept. MatchOption kept
        (length (claim_text sig.now (proves name.now steps.items)) ≤ 300000 → ⊥)
        (λ same. (same.items ≡ steps.items)
        × (length (claim_text sig.now (proves name.now steps.items)) ≤ 300000))) }
{
    if bytes <= MOST_CLAIM_BYTES {
        return Ok(Some(steps));
    }
    let block = Block {
        steps: Seq::from_vec(steps),
    };
    let claim = Claim {
        goal: name.copy(alloc)?,
        outcome: Outcome::Proved(block),
    };
    let text = print_claim(alloc, sig, &claim)?;
    let short = text.len() <= MOST_CLAIM_BYTES;
    let Claim { goal: _, outcome } = claim;
    match outcome {
        Outcome::Proved(block) if short => Ok(Some(block.steps.into_vec())),
        _ => Ok(None),
    }
}

/// The block that is left of this one after the cut. The flag of its node stays as it is. The text
/// gets longer by the closing step's line at most.
pub(crate) fn cut_block<O: TermOrder>(
    alloc: Global,
    admitted: &Admitted<O>,
    place: &ClaimAt,
    block: KeptBlock,
    cut: NodeCut,
) -> Result<KeptBlock, OutOfMemory>
    requires { (kept : IsKept (O.above admitted.now.order) admitted.now.spec place.now.report.now
        place.now.number block)
        × FitsAt (O.above admitted.now.order) admitted.now.spec place.now.report.now
        place.now.number block kept cut.node cut.fit
        × ClosesAt (O.above admitted.now.order) admitted.now.spec place.now.report.now
        place.now.number block kept cut.node cut.fit.step cut.rest.items }
    ensures steps { IfOk result (λ made. made.steps.items ≡ cut.rest.items) }
    ensures kept { IfOk result (IsKept (O.above admitted.now.order) admitted.now.spec
        place.now.report.now place.now.number) }
{
    clause_core::one_relation(&admitted.order);
    let NodeCut { node, fit, rest } = cut;
    let name = name_at(place.report, place.number);
    let bytes = bytes_with(alloc, &admitted.spec.sig, name, block.bytes, &fit.step)?;
    left_block(alloc, block, node, fit, rest, bytes)
}

/// The lists of the block without what doesn't stay.
fn left_block(
    alloc: Global,
    block: KeptBlock,
    node: usize,
    fit: Fit,
    rest: Vec<Step>,
    bytes: usize,
) -> Result<KeptBlock, OutOfMemory>
    requires { IsCuttable block node fit.made }
    ensures { IfOk result (IsLeft block node fit.made rest.items bytes) }
{
    let links = block.links.as_slice();
    let stays = staying_nodes(alloc, links, node)?;
    let stays = stays.as_slice();
    let left = left_links(alloc, links, node, &fit.made, stays)?;
    kept_lists(alloc, block, stays, left, rest, bytes)
}

/// The links that are left, with references under their new numbers.
fn left_links(
    alloc: Global,
    links: &[Children],
    node: usize,
    closed: &Children,
    stays: &[bool],
) -> Result<Vec<Children>, OutOfMemory>
    requires whole { IsWholeBlock links.now }
    requires long { length links.now ≡ length stays.now }
    requires closed { RefersWithin (length links.now) closed.now }
    ensures { IfOk result (λ left. left.items
        ≡ map links_of (cut_made (flag_of stays.now) links.now node closed.now)) }
{
    let numbers = new_numbers(alloc, stays)?;
    cut_links(alloc, links, node, closed, stays, numbers.as_slice())
}

/// These steps and links, with what stays of the other lists of the block.
fn kept_lists(
    alloc: Global,
    block: KeptBlock,
    stays: &[bool],
    links: Vec<Children>,
    steps: Vec<Step>,
    bytes: usize,
) -> Result<KeptBlock, OutOfMemory>
    requires nodes { length block.nodes.items ≡ length stays.now }
    requires keys { length block.keys.items ≡ length stays.now }
    requires flags { length block.hopeful.items ≡ length stays.now }
    ensures bytes { IfOk result (λ made. made.bytes ≡ bytes) }
    ensures steps { IfOk result (λ made. made.steps.items ≡ steps.items) }
    ensures links { IfOk result (λ made. made.links.items ≡ links.items) }
    ensures nodes { IfOk result
        (λ made. made.nodes.items ≡ staying (flag_of stays.now) 0 block.nodes.items) }
    ensures keys { IfOk result
        (λ made. made.keys.items ≡ staying (flag_of stays.now) 0 block.keys.items) }
    ensures flags { IfOk result
        (λ made. made.hopeful.items ≡ staying (flag_of stays.now) 0 block.hopeful.items) }
{
    let KeptBlock {
        steps: _steps,
        nodes,
        keys,
        links: _links,
        hopeful,
        bytes: _bytes,
    } = block;
    let nodes = keep(alloc, nodes, stays)?;
    let keys = keep(alloc, keys, stays)?;
    let hopeful = keep(alloc, hopeful, stays)?;
    Ok(KeptBlock {
        steps,
        nodes,
        keys,
        links,
        hopeful,
        bytes,
    })
}
