//! The chosen step of a node, with what it makes.

ghost use Rattle.std.specs.Prelude.{◌≡◌, ◌<◌, Some, IfOk, IfSome, length, slice_get};
ghost use Rattle.spec_core.specs.WellSorted.{IsWellSorted};
ghost use Rattle.clause_core.specs.declared.clauses.Clause.{Clause as ClauseOf};
ghost use Rattle.inference_rules.specs.Answers.{clauses_of};
ghost use Rattle.inference_rules.specs.Nodes.{AreNodes, clauses_made};
ghost use Rattle.plain_search.specs.Candidates.{IsStart, IsMade, IsTaken, IsNext};

use crate::candidates::{Candidate, Taken};
use clause_core::{Children, Step, one_answer};
use inference_rules::{Node, StepError, children};
use normalization::Rewriter;
use spec_core::Spec;
use std::alloc::Global;
use term_core::OutOfMemory;
use term_order::TermOrder;

/// The chosen step of a node with what it makes, over the nodes so far.
pub(crate) fn next_step<O: TermOrder>(
    alloc: Global,
    spec: &Spec,
    order: &O,
    rewriter: &Rewriter,
    nodes: &[Node],
    node: u32,
) -> Result<Option<Taken>, OutOfMemory>
    requires fine { IsWellSorted spec.now }
    requires its { rewriter.now ≡ spec.now }
    requires in_range { node < length nodes.now }
    requires nodes { AreNodes spec.now.sig (clauses_of nodes.now) }
    requires start { (start : ClauseOf) → slice_get (clauses_of nodes.now) 0 ≡ Some start →
        IsStart start }
    ensures next { IfOk result (λ found. (start c : ClauseOf) →
        slice_get (clauses_of nodes.now) 0 ≡ Some start →
        slice_get (clauses_of nodes.now) node ≡ Some c →
        IsNext (O.above order.now) spec.now start (clauses_of nodes.now) c found) }
    ensures nodes { IfOk result (λ found. IfSome found (λ taken.
        AreNodes spec.now.sig (clauses_made taken.made))) }
{
    for candidate in Candidate::ALL {
        let found = taken_by(alloc, spec, order, rewriter, nodes, node, candidate)?;
        if found.is_some() {
            return Ok(found);
        }
    }
    Ok(None)
}

/// The candidate's step at a node with what it makes, if the table of steps defines it.
fn taken_by<O: TermOrder>(
    alloc: Global,
    spec: &Spec,
    order: &O,
    rewriter: &Rewriter,
    nodes: &[Node],
    node: u32,
    candidate: Candidate,
) -> Result<Option<Taken>, OutOfMemory>
    requires fine { IsWellSorted spec.now }
    requires its { rewriter.now ≡ spec.now }
    requires in_range { node < length nodes.now }
    requires nodes { AreNodes spec.now.sig (clauses_of nodes.now) }
    requires start { (start : ClauseOf) → slice_get (clauses_of nodes.now) 0 ≡ Some start →
        IsStart start }
    ensures taken { IfOk result (λ found. (start c : ClauseOf) →
        slice_get (clauses_of nodes.now) 0 ≡ Some start →
        slice_get (clauses_of nodes.now) node ≡ Some c →
        IsTaken (O.above order.now) spec.now start (clauses_of nodes.now) c candidate found) }
    ensures nodes { IfOk result (λ found. IfSome found (λ taken.
        AreNodes spec.now.sig (clauses_made taken.made))) }
{
    let start = &nodes[0].clause;
    let here = &nodes[node as usize].clause;
    let Some(step) = candidate.step(alloc, rewriter, start, here)? else {
        return Ok(None);
    };
    match made_by(alloc, spec, order, nodes, node, &step)? {
        None => Ok(None),
        Some(made) => Ok(Some(Taken { step, made })),
    }
}

/// What the step makes at a node, if the table of steps defines it.
pub(crate) fn made_by<O: TermOrder>(
    alloc: Global,
    spec: &Spec,
    order: &O,
    nodes: &[Node],
    node: u32,
    step: &Step,
) -> Result<Option<Children>, OutOfMemory>
    requires fine { IsWellSorted spec.now }
    requires in_range { node < length nodes.now }
    requires nodes { AreNodes spec.now.sig (clauses_of nodes.now) }
    ensures made { IfOk result (λ found. (c : ClauseOf) →
        slice_get (clauses_of nodes.now) node ≡ Some c →
        IsMade (O.above order.now) spec.now (clauses_of nodes.now) c step.now found) }
    ensures nodes { IfOk result (λ found. IfSome found (λ made.
        AreNodes spec.now.sig (clauses_made made))) }
{
    one_answer(order);
    match children(alloc, spec, order, &[], nodes, node, step) {
        Ok(made) => Ok(Some(made)),
        Err(StepError::Why(_)) => Ok(None),
        Err(StepError::OutOfMemory) => Err(OutOfMemory),
    }
}
