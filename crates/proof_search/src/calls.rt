//! `is_repeated`: whether a cover unfolds a call that is unfolded already.

use crate::building::Building;
use clause_core::Step;
use clause_places::{Call, call_around};
use routine_proof::Move;
use spec_core::Signature;

/// Whether the next node's cover would only repeat others: no variable of the goal has the sort of
/// the one that is covered, or on the way there is a cover of a variable in the same argument of
/// the same function.
pub(crate) fn is_repeated(sig: &Signature, building: &Building, next: &Move) -> bool {
    let nodes = building.block.nodes.as_slice();
    let (Some(first), Some(node)) = (nodes.first(), nodes.get(building.steps.len())) else {
        return false;
    };
    let Step::Cover(variable, _) = &next.step else {
        return false;
    };
    let Some(sort) = node.clause.ctx.as_slice().get(variable.0 as usize) else {
        return false;
    };
    if !first.clause.ctx.as_slice().contains(sort) {
        return true;
    }
    match call_around(sig, &node.clause, *variable) {
        Some(call) => is_unfolded_above(sig, building, call),
        None => false,
    }
}

/// Whether a cover on the way to the next node is of a variable in this call.
fn is_unfolded_above(sig: &Signature, building: &Building, call: Call) -> bool {
    let nodes = building.block.nodes.as_slice();
    let steps = building.steps.as_slice();
    let parents = building.parents.as_slice();
    let mut here = steps.len();
    for _ in 0..steps.len() {
        let Some(parent) = parents.get(here) else {
            return false;
        };
        here = *parent as usize;
        if let (Some(node), Some(Step::Cover(variable, _))) = (nodes.get(here), steps.get(here)) {
            if call_around(sig, &node.clause, *variable) == Some(call) {
                return true;
            }
        }
    }
    false
}
