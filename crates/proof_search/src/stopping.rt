//! `stuck_starts`: where the search for a routine proof of a goal stops, from start to start.

ghost use Rattle.std.specs.Prelude.{◌≡◌, ◌<◌, Some, IfOk, length, slice_get};
ghost use Rattle.std.specs.List.{AllByRecursion};
ghost use Rattle.spec_core.specs.declared.records.Goal.{Goal as GoalOf};
ghost use Rattle.spec_core.specs.WellSorted.{IsWellSorted, GoalIsSorted};
ghost use Rattle.proof_search.specs.Stuck.{AreStuckStarts};

use crate::guiding::same_split;
use crate::limits::Limits;
use crate::passing::{Passing, walk_from};
use crate::setting::Setting;
use crate::starting::Start;
use crate::stuck::Stuck;
use clause_core::{of_goal, within};
use spec_admit::Admitted;
use spec_core::{Goal, Spec};
use std::alloc::Global;
use term_core::{OutOfMemory, VarId};
use term_order::TermOrder;

/// The nodes at which the routine strategy stops on the way from one start of a goal.
#[derive(Drop)]
pub struct StuckStart {
    /// The variable that is split first, if one is.
    pub split: Option<VarId>,
    /// How many nodes were built.
    pub nodes: usize,
    /// Whether more nodes were built than are allowed, so that some weren't looked at.
    pub cut: bool,
    pub stuck: Vec<Stuck>,
}

/// For each start of the goal the nodes at which the search for its routine proof stops: those
/// without a step, and those whose cover would repeat one on the way to them. Such nodes are
/// passed over, and the others go on, to at most `nodes` nodes.
pub fn stuck_starts<O: TermOrder>(
    alloc: Global,
    admitted: &Admitted<O>,
    goal: u32,
    lemmas: &[u32],
    nodes: u32,
) -> Result<Vec<StuckStart>, OutOfMemory>
    requires in_range { goal < length admitted.now.spec.goals }
    ensures { IfOk result (λ found. (it : GoalOf) →
        slice_get admitted.now.spec.goals goal ≡ Some it →
        AreStuckStarts (O.above admitted.now.order) admitted.now.spec lemmas.now it found.items) }
{
    let Admitted { spec, order } = admitted;
    let goals = spec.goals.as_slice();
    starts_of(alloc, spec, order, &goals[goal as usize], lemmas, nodes)
}

/// The same of a goal itself.
fn starts_of<O: TermOrder>(
    alloc: Global,
    spec: &Spec,
    order: &O,
    goal: &Goal,
    lemmas: &[u32],
    nodes: u32,
) -> Result<Vec<StuckStart>, OutOfMemory>
    requires fine { IsWellSorted spec.now }
    requires sorted { GoalIsSorted spec.now.sig goal.now }
    ensures { IfOk result (λ found.
        AreStuckStarts (O.above order.now) spec.now lemmas.now goal.now found.items) }
{
    clause_core::tidying_laws();
    let clause = of_goal(alloc, goal)?;
    let mut found = Vec::new(alloc);
    if !within(&clause) {
        return Ok(found);
    }
    let setting = Setting::new(alloc, order, spec, lemmas)?;
    let passing = open_passing(nodes);
    let unsplit = walk_from(alloc, order, &setting, goal, Start::NoSplit, passing)?;
    found.push(StuckStart {
        split: None,
        nodes: unsplit.built.saturating_add(unsplit.stuck.len()),
        cut: unsplit.cut,
        stuck: unsplit.stuck,
    })?;
    let same = same_split(alloc, spec, &clause, unsplit.first)?;
    for number in 0..clause.ctx.len() as u32 {
        let variable = VarId(number);
        if same == Some(variable) {
            continue;
        }
        let start = Start::Split(variable);
        let met = walk_from(alloc, order, &setting, goal, start, passing)?;
        found.push(StuckStart {
            split: Some(variable),
            nodes: met.built.saturating_add(met.stuck.len()),
            cut: met.cut,
            stuck: met.stuck,
        })?;
    }
    Ok(found)
}

/// Covers that others repeat alone are passed over.
fn open_passing(nodes: u32) -> Passing {
    Passing {
        limits: Limits {
            nodes,
            covers: u32::MAX,
            size: u32::MAX,
        },
        repeated_alone: true,
    }
}
