//! The first cut of a claim.

ghost use Rattle.std.specs.Prelude.{◌≡◌, ◌<◌, IfOk, length};
ghost use Rattle.std.specs.List.{AllByRecursion};
ghost use Rattle.acceptance.specs.Strict.{first_child};
ghost use Rattle.script_trim.specs.Cutting.{FitsAt};
ghost use Rattle.script_trim.specs.Finding.{FindsAmong, FindsCutAt, FindsCutBelow, FindsFirstCut};
ghost use Rattle.script_trim.specs.Kept.{IsKept};
ghost use Rattle.script_trim.specs.Placing.{IsPlaced};

use crate::blocks::{Fit, KeptBlock, NodeCut};
use crate::cutting::rest_of;
use crate::fitting::{other_fits, own_fits};
use crate::placing::{ClaimAt, NodeAt};
use spec_admit::Admitted;
use std::alloc::Global;
use term_core::OutOfMemory;
use term_order::TermOrder;

/// The first cut of the block: at the first node that has children and could be closed.
pub(crate) fn first_cut<O: TermOrder>(
    alloc: Global,
    admitted: &Admitted<O>,
    place: &ClaimAt,
    block: &KeptBlock,
) -> Result<Option<NodeCut>, OutOfMemory>
    requires placed { IsPlaced (O.above admitted.now.order) admitted.now.spec place.now }
    requires kept { IsKept (O.above admitted.now.order) admitted.now.spec place.now.report.now
        place.now.number block.now }
    ensures { IfOk result (FindsFirstCut (O.above admitted.now.order) admitted.now.spec
        place.now.report.now place.now.number block.now) }
{
    clause_core::one_relation(&admitted.order);
    let mut before = 1;
    for (node, made) in block.links.as_slice().iter().enumerate() {
        let after = before + made.clauses.len();
        if let Some(cut) = cut_below(alloc, admitted, place, block, before, node)? {
            return Ok(Some(cut));
        }
        before = after;
    }
    Ok(None)
}

/// The cut at this node, if it has children and could be closed. The steps before it make
/// `before` nodes.
fn cut_below<O: TermOrder>(
    alloc: Global,
    admitted: &Admitted<O>,
    place: &ClaimAt,
    block: &KeptBlock,
    before: usize,
    node: usize,
) -> Result<Option<NodeCut>, OutOfMemory>
    requires placed { IsPlaced (O.above admitted.now.order) admitted.now.spec place.now }
    requires kept { IsKept (O.above admitted.now.order) admitted.now.spec place.now.report.now
        place.now.number block.now }
    requires before { before ≡ first_child block.now.links.items node }
    requires there { node < length block.now.links.items }
    ensures { IfOk result (FindsCutBelow (O.above admitted.now.order) admitted.now.spec
        place.now.report.now place.now.number block.now node) }
{
    clause_core::one_relation(&admitted.order);
    let links = block.links.as_slice();
    let made = &links[node];
    if made.clauses.is_empty() {
        return Ok(None);
    }
    let flags = block.hopeful.as_slice();
    if !flags[node] {
        return Ok(None);
    }
    cut_at(alloc, admitted, place, block, before, node)
}

/// The cut at this node by the first closing step that could close it. The steps before it make
/// `before` nodes. No other clause is looked at if one of the node's own equations closes it.
fn cut_at<O: TermOrder>(
    alloc: Global,
    admitted: &Admitted<O>,
    place: &ClaimAt,
    block: &KeptBlock,
    before: usize,
    node: usize,
) -> Result<Option<NodeCut>, OutOfMemory>
    requires placed { IsPlaced (O.above admitted.now.order) admitted.now.spec place.now }
    requires kept { IsKept (O.above admitted.now.order) admitted.now.spec place.now.report.now
        place.now.number block.now }
    requires before { before ≡ first_child block.now.links.items node }
    requires there { node < length block.now.links.items }
    ensures { IfOk result (FindsCutAt (O.above admitted.now.order) admitted.now.spec
        place.now.report.now place.now.number block.now node) }
{
    clause_core::one_relation(&admitted.order);
    clause_core::tidying_laws();
    descent::children_are_sorted(&admitted.order);
    let nodes = block.nodes.as_slice();
    let keys = block.keys.as_slice();
    let at = NodeAt {
        number: node,
        before,
        alone: false,
    };
    let own = own_fits(alloc, admitted, place.lemmas, nodes, at)?;
    if let Some(cut) = cut_among(alloc, admitted, place, block, node, own)? {
        return Ok(Some(cut));
    }
    let others = other_fits(alloc, admitted, place.lemmas, nodes, keys, at)?;
    cut_among(alloc, admitted, place, block, node, others)
}

/// The cut at this node by the first of the fits that could close it.
fn cut_among<O: TermOrder>(
    alloc: Global,
    admitted: &Admitted<O>,
    place: &ClaimAt,
    block: &KeptBlock,
    node: usize,
    fits: Vec<Fit>,
) -> Result<Option<NodeCut>, OutOfMemory>
    requires kept { IsKept (O.above admitted.now.order) admitted.now.spec place.now.report.now
        place.now.number block.now }
    requires there { node < length block.now.steps.items }
    requires fits { (k : IsKept (O.above admitted.now.order) admitted.now.spec place.now.report.now
        place.now.number block.now) → AllByRecursion (FitsAt (O.above admitted.now.order)
        admitted.now.spec place.now.report.now place.now.number block.now k node) fits.items }
    ensures { IfOk result (FindsAmong (O.above admitted.now.order) admitted.now.spec
        place.now.report.now place.now.number block.now node fits.items) }
{
    for fit in fits {
        let rest = rest_of(alloc, admitted, place, block, node, &fit)?;
        if let Some(rest) = rest {
            return Ok(Some(NodeCut { node, fit, rest }));
        }
    }
    Ok(None)
}
