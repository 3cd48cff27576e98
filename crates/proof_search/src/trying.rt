//! `proof_within`: a routine proof whose block keeps limits.

ghost use Rattle.std.specs.Prelude.{◌≡◌, ◌<◌, Some, IfOk, length, slice_get};
ghost use Rattle.spec_core.specs.declared.records.Goal.{Goal as GoalOf};
ghost use Rattle.spec_core.specs.WellSorted.{IsWellSorted, GoalIsSorted};
ghost use Rattle.proof_search.specs.Bounding.{IsRoutineWithin};
ghost use Rattle.proof_search.specs.Guided.{IsAcceptedAfter};

use crate::answers::Guided;
use crate::bounding::bounded_proof;
use crate::guiding::same_split;
use crate::limits::Limits;
use crate::proving::Tried;
use crate::setting::Setting;
use crate::starting::Start;
use clause_core::{of_goal, within};
use routine_proof::proves_behind_claims;
use spec_admit::Admitted;
use spec_core::{Goal, Spec};
use std::alloc::Global;
use term_core::{OutOfMemory, VarId};
use term_order::TermOrder;

/// A routine proof of the goal of this number over the goals of the other numbers as lemmas. A
/// start is given up as soon as its block passes the limits: they are for trying many candidates,
/// most of which have no short proof. So Unfinished says nothing.
pub fn proof_within<O: TermOrder>(
    alloc: Global,
    admitted: &Admitted<O>,
    goal: u32,
    lemmas: &[u32],
    limits: Limits,
) -> Result<Guided, OutOfMemory>
    requires in_range { goal < length admitted.now.spec.goals }
    ensures routine { IfOk result (λ found. (it : GoalOf) →
        slice_get admitted.now.spec.goals goal ≡ Some it →
        IsRoutineWithin (O.above admitted.now.order) admitted.now.spec lemmas.now it limits.nodes
        found) }
    ensures accepted { IfOk result (λ found. (it : GoalOf) →
        slice_get admitted.now.spec.goals goal ≡ Some it →
        IsAcceptedAfter (O.above admitted.now.order) admitted.now.spec lemmas.now it found) }
{
    let Admitted { spec, order } = admitted;
    proves_behind_claims(order);
    let goals = spec.goals.as_slice();
    some_proof(alloc, spec, order, &goals[goal as usize], lemmas, limits)
}

/// The same of a goal itself.
fn some_proof<O: TermOrder>(
    alloc: Global,
    spec: &Spec,
    order: &O,
    goal: &Goal,
    lemmas: &[u32],
    limits: Limits,
) -> Result<Guided, OutOfMemory>
    requires fine { IsWellSorted spec.now }
    requires sorted { GoalIsSorted spec.now.sig goal.now }
    ensures { IfOk result (IsRoutineWithin (O.above order.now) spec.now lemmas.now goal.now
        limits.nodes) }
{
    clause_core::tidying_laws();
    let clause = of_goal(alloc, goal)?;
    if !within(&clause) {
        return Ok(Guided::Unfinished);
    }
    let setting = Setting::new(alloc, order, spec, lemmas)?;
    let first = match bounded_proof(alloc, order, &setting, goal, Start::NoSplit, limits)? {
        Tried::Proof(block) => return Ok(Guided::Block(block)),
        Tried::Not { first } => first,
    };
    let same = same_split(alloc, spec, &clause, first)?;
    for number in 0..clause.ctx.len() as u32 {
        let variable = VarId(number);
        if same == Some(variable) {
            continue;
        }
        let start = Start::Split(variable);
        if let Tried::Proof(block) = bounded_proof(alloc, order, &setting, goal, start, limits)? {
            return Ok(Guided::Block(block));
        }
    }
    Ok(Guided::Unfinished)
}
