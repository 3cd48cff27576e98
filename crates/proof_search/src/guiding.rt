//! `guided`: the goal of a number, and the starts of a goal.

ghost use Rattle.std.specs.Prelude.{◌≡◌, ◌<◌, ◌↔◌, Some, IsTrue, IfOk, length, slice_get};
ghost use Rattle.std.specs.Option.{IfSome};
ghost use Rattle.spec_core.specs.declared.records.Goal.{Goal as GoalOf};
ghost use Rattle.spec_core.specs.WellSorted.{IsWellSorted, GoalIsSorted};
ghost use Rattle.routine_proof.specs.Routine.{IsFirstProof};
ghost use Rattle.proof_search.specs.Guided.{steps_in, IsAcceptedAfter};
ghost use Rattle.proof_search.specs.Proving.{IsCoverOf};

use crate::answers::Guided;
use crate::proving::{Tried, proof_from};
use crate::setting::Setting;
use crate::starting::Start;
use clause_core::{Clause, Step, of_goal, within};
use routine_proof::proves_behind_claims;
use spec_admit::Admitted;
use spec_core::{Goal, Spec};
use std::alloc::Global;
use term_core::{OutOfMemory, Term, VarId};
use term_order::TermOrder;
use test_sets::test_set;

/// The first routine proof of the goal with this number with at most `nodes` nodes, over the goals
/// of the other numbers as lemmas. A number that no goal has is no lemma.
pub fn guided<O: TermOrder>(
    alloc: Global,
    admitted: &Admitted<O>,
    goal: u32,
    lemmas: &[u32],
    nodes: u32,
) -> Result<Guided, OutOfMemory>
    requires in_range { goal < length admitted.now.spec.goals }
    ensures first { IfOk result (λ found. (it : GoalOf) →
        slice_get admitted.now.spec.goals goal ≡ Some it →
        IsFirstProof (O.above admitted.now.order) admitted.now.spec lemmas.now it nodes
        (steps_in found)) }
    ensures accepted { IfOk result (λ found. (it : GoalOf) →
        slice_get admitted.now.spec.goals goal ≡ Some it →
        IsAcceptedAfter (O.above admitted.now.order) admitted.now.spec lemmas.now it found) }
{
    let Admitted { spec, order } = admitted;
    proves_behind_claims(order);
    let goals = spec.goals.as_slice();
    first_proof(alloc, spec, order, &goals[goal as usize], lemmas, nodes)
}

/// The same of a goal itself.
fn first_proof<O: TermOrder>(
    alloc: Global,
    spec: &Spec,
    order: &O,
    goal: &Goal,
    lemmas: &[u32],
    nodes: u32,
) -> Result<Guided, OutOfMemory>
    requires fine { IsWellSorted spec.now }
    requires sorted { GoalIsSorted spec.now.sig goal.now }
    ensures { IfOk result (λ found. IsFirstProof (O.above order.now) spec.now lemmas.now goal.now
        nodes (steps_in found)) }
{
    clause_core::one_answer(order);
    clause_core::tidying_laws();
    let clause = of_goal(alloc, goal)?;
    if !within(&clause) {
        return Ok(Guided::Unfinished);
    }
    let setting = Setting::new(alloc, order, spec, lemmas)?;
    let first = match proof_from(alloc, order, &setting, goal, Start::NoSplit, nodes)? {
        Tried::Proof(block) => return Ok(Guided::Block(block)),
        Tried::Not { first } => first,
    };
    let same = same_split(alloc, spec, &clause, first)?;
    for number in 0..clause.ctx.len() as u32 {
        let variable = VarId(number);
        if same == Some(variable) {
            continue;
        }
        let start = Start::Split(variable);
        if let Tried::Proof(block) = proof_from(alloc, order, &setting, goal, start, nodes)? {
            return Ok(Guided::Block(block));
        }
    }
    Ok(Guided::Unfinished)
}

/// The variable whose split is the same start as one that begins with this step: the step is its
/// cover by the test set of its sort.
pub(crate) fn same_split(
    alloc: Global,
    spec: &Spec,
    clause: &Clause,
    first: Option<Step>,
) -> Result<Option<VarId>, OutOfMemory>
    requires { IsWellSorted spec.now }
    ensures { IfOk result (λ found. IfSome found (IsCoverOf spec.now clause.now first)) }
{
    let Some(Step::Cover(variable, patterns)) = first else {
        return Ok(None);
    };
    let Some(sort) = clause.ctx.as_slice().get(variable.0 as usize) else {
        return Ok(None);
    };
    let set = test_set(alloc, &spec.sig, *sort)?;
    if are_same(patterns.as_slice(), &set) {
        return Ok(Some(variable));
    }
    Ok(None)
}

fn are_same(terms: &[Term], others: &[Term]) -> bool
    ensures { IsTrue result ↔ (terms.now ≡ others.now) }
{
    match (terms, others) {
        ([], []) => true,
        ([term, terms @ ..], [other, others @ ..]) => term.same(other) && are_same(terms, others),
        _ => false,
    }
}
