//! `open_starts`: the starts of an open goal, each with the nodes that are shown.

ghost use Rattle.std.specs.Prelude.{◌≡◌, ◌<◌, Some, IfOk, length, slice_get};
ghost use Rattle.spec_core.specs.declared.records.Goal.{Goal as GoalOf};
ghost use Rattle.proof_search.specs.Stuck.{AreStuckStarts, IsStuckStart};
ghost use Rattle.open_goals.specs.Stops.{IsStopAt, IsOpenStart, AreOpenStarts};

use crate::choosing::is_shown;
use crate::near::{Near, nears};
use crate::taking::{take_first, take_smallest};
use clause_places::asked;
use node_names::clause_names;
use proof_search::{Stuck, StuckStart, stuck_starts};
use spec_admit::Admitted;
use spec_core::{Goal, Spec};
use std::alloc::Global;
use term_core::{Name, OutOfMemory, VarId};
use term_order::TermOrder;

/// How many nodes of a start are shown.
const MOST_STOPS: usize = 3;

/// A node at which the strategy stops, as it is shown.
#[derive(Drop)]
pub struct Stop {
    pub stuck: Stuck,
    /// Names for the variables of its clause.
    pub names: Vec<Name>,
    /// The variable that the calls of its clause ask for.
    pub next: Option<VarId>,
    pub nears: Vec<Near>,
}

/// A start of a goal, and some of the nodes at which it stops.
#[derive(Drop)]
pub struct OpenStart {
    /// The variable that is split first, if one is.
    pub split: Option<VarId>,
    /// How many nodes were built.
    pub nodes: usize,
    /// Whether more nodes were built than are allowed.
    pub cut: bool,
    pub stops: Vec<Stop>,
}

/// What is shown of the starts of the goal with this number.
pub(crate) fn open_starts<O: TermOrder>(
    alloc: Global,
    admitted: &Admitted<O>,
    goal: u32,
    lemmas: &[u32],
    nodes: u32,
) -> Result<Vec<OpenStart>, OutOfMemory>
    requires in_range { goal < length admitted.now.spec.goals }
    ensures { IfOk result (λ made. (it : GoalOf) →
        slice_get admitted.now.spec.goals goal ≡ Some it →
        AreOpenStarts (O.above admitted.now.order) admitted.now.spec lemmas.now it made.items) }
{
    let starts = stuck_starts(alloc, admitted, goal, lemmas, nodes)?;
    let Admitted { spec, order } = admitted;
    let goals = spec.goals.as_slice();
    all_starts(alloc, order, spec, &goals[goal as usize], lemmas, starts)
}

/// The same of all starts of a goal.
fn all_starts<O: TermOrder>(
    alloc: Global,
    order: &O,
    spec: &Spec,
    goal: &Goal,
    lemmas: &[u32],
    starts: Vec<StuckStart>,
) -> Result<Vec<OpenStart>, OutOfMemory>
    requires { AreStuckStarts (O.above order.now) spec.now lemmas.now goal.now starts.items }
    ensures { IfOk result (λ made.
        AreOpenStarts (O.above order.now) spec.now lemmas.now goal.now made.items) }
{
    let mut starts = starts;
    let mut made = Vec::new(alloc);
    for _ in 0..starts.len() {
        let Some(start) = take_first(&mut starts) else {
            return Ok(made);
        };
        made.push(open_start(alloc, order, spec, goal, lemmas, start)?)?;
    }
    Ok(made)
}

/// The start with the smallest of its nodes.
fn open_start<O: TermOrder>(
    alloc: Global,
    order: &O,
    spec: &Spec,
    goal: &Goal,
    lemmas: &[u32],
    start: StuckStart,
) -> Result<OpenStart, OutOfMemory>
    requires { IsStuckStart (O.above order.now) spec.now lemmas.now goal.now start }
    ensures { IfOk result
        (IsOpenStart (O.above order.now) spec.now lemmas.now goal.now) }
{
    let StuckStart {
        split,
        nodes,
        cut,
        stuck,
    } = start;
    let mut stuck = stuck;
    let mut stops = Vec::new(alloc);
    for _ in 0..stuck.len() {
        if stops.len() >= MOST_STOPS {
            break;
        }
        let Some(node) = take_smallest(&mut stuck) else {
            break;
        };
        if is_shown(&stops, &node.clause) {
            continue;
        }
        stops.push(stop_at(alloc, order, spec, goal, lemmas, node)?)?;
    }
    Ok(OpenStart {
        split,
        nodes,
        cut,
        stops,
    })
}

/// The node as it is shown.
fn stop_at<O: TermOrder>(
    alloc: Global,
    order: &O,
    spec: &Spec,
    goal: &Goal,
    lemmas: &[u32],
    stuck: Stuck,
) -> Result<Stop, OutOfMemory>
    ensures { IfOk result (IsStopAt spec.now lemmas.now goal.now stuck) }
{
    let names = clause_names(alloc, spec, goal, &stuck.clause)?;
    let next = asked(alloc, spec, &stuck.clause)?;
    let nears = nears(alloc, order, spec, goal, lemmas, &stuck.clause)?;
    Ok(Stop {
        stuck,
        names,
        next,
        nears,
    })
}
