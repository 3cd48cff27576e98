//! `stuck_nodes`: the nodes at which the routine strategy stops on the way to a proof.

ghost use Rattle.std.specs.Prelude.{◌≡◌, ◌<◌, Some, IfOk, length, map, slice_get};
ghost use Rattle.spec_core.specs.declared.records.Goal.{Goal as GoalOf};
ghost use Rattle.spec_core.specs.WellSorted.{IsWellSorted, GoalIsSorted};
ghost use Rattle.proof_search.specs.declared.stuck.Stuck.{Stuck as StuckOf};
ghost use Rattle.proof_search.specs.Stuck.{AreStuck, AreStuckClauses};

use crate::guiding::same_split;
use crate::limits::Limits;
use crate::passing::{Passing, walk_from};
use crate::setting::Setting;
use crate::starting::Start;
use clause_core::{Clause, of_goal, within};
use spec_admit::Admitted;
use spec_core::{Goal, Spec};
use std::alloc::Global;
use term_core::{OutOfMemory, VarId};
use term_order::TermOrder;

/// Why the routine strategy stops at a node.
#[derive(Clone, Copy)]
pub enum Cause {
    /// No entry of its list gives a step.
    NoStep,
    /// The step is a cover.
    Covers,
}

/// A node other than the goal's at which the routine strategy stops.
#[derive(Drop)]
pub struct Stuck {
    pub clause: Clause,
    pub cause: Cause,
}

/// The clauses of `stuck_nodes`.
pub fn stuck_clauses<O: TermOrder>(
    alloc: Global,
    admitted: &Admitted<O>,
    goal: u32,
    lemmas: &[u32],
    limits: Limits,
) -> Result<Vec<Clause>, OutOfMemory>
    requires in_range { goal < length admitted.now.spec.goals }
    ensures { IfOk result (λ found. (it : GoalOf) →
        slice_get admitted.now.spec.goals goal ≡ Some it →
        AreStuckClauses (O.above admitted.now.order) admitted.now.spec lemmas.now it found.items) }
{
    let stuck = stuck_nodes(alloc, admitted, goal, lemmas, limits)?;
    clauses(alloc, stuck)
}

fn clauses(alloc: Global, stuck: Vec<Stuck>) -> Result<Vec<Clause>, OutOfMemory>
    ensures { IfOk result (λ made. made.items ≡ map (λ (s : StuckOf). s.clause) stuck.items) }
{
    let mut made = Vec::with_capacity(alloc, stuck.len())?;
    for node in stuck {
        made.push(node.clause)?;
    }
    Ok(made)
}

/// The nodes at which the search for a routine proof of the goal stops: for each start those
/// without a step and those that cover, other than the goal's own. Nodes without a step, and those
/// that cover inside as many covers as are allowed, are passed over, and the others go on.
pub fn stuck_nodes<O: TermOrder>(
    alloc: Global,
    admitted: &Admitted<O>,
    goal: u32,
    lemmas: &[u32],
    limits: Limits,
) -> Result<Vec<Stuck>, OutOfMemory>
    requires in_range { goal < length admitted.now.spec.goals }
    ensures { IfOk result (λ found. (it : GoalOf) →
        slice_get admitted.now.spec.goals goal ≡ Some it →
        AreStuck (O.above admitted.now.order) admitted.now.spec lemmas.now it found.items) }
{
    let Admitted { spec, order } = admitted;
    let goals = spec.goals.as_slice();
    stuck_of(alloc, spec, order, &goals[goal as usize], lemmas, limits)
}

/// The same of a goal itself.
fn stuck_of<O: TermOrder>(
    alloc: Global,
    spec: &Spec,
    order: &O,
    goal: &Goal,
    lemmas: &[u32],
    limits: Limits,
) -> Result<Vec<Stuck>, OutOfMemory>
    requires fine { IsWellSorted spec.now }
    requires sorted { GoalIsSorted spec.now.sig goal.now }
    ensures { IfOk result (λ found.
        AreStuck (O.above order.now) spec.now lemmas.now goal.now found.items) }
{
    clause_core::tidying_laws();
    let clause = of_goal(alloc, goal)?;
    if !within(&clause) {
        return Ok(Vec::new(alloc));
    }
    let setting = Setting::new(alloc, order, spec, lemmas)?;
    let passing = Passing {
        limits,
        repeated_alone: false,
    };
    let unsplit = walk_from(alloc, order, &setting, goal, Start::NoSplit, passing)?;
    let mut found = unsplit.stuck;
    let same = same_split(alloc, spec, &clause, unsplit.first)?;
    for number in 0..clause.ctx.len() as u32 {
        let variable = VarId(number);
        if same == Some(variable) {
            continue;
        }
        let start = Start::Split(variable);
        let met = walk_from(alloc, order, &setting, goal, start, passing)?;
        let mut more = met.stuck;
        found.append(&mut more)?;
    }
    Ok(found)
}
