//! Goals that are added and taken off.

ghost use Rattle.std.specs.Prelude.{◌≡◌, ◌↔◌, IsTrue, IfOk, OnOk, MatchResult, take};
ghost use Rattle.growing_specs.specs.Growing.{MayBeAdded, goals_after, with_goals};

use crate::sorting::goal_is_sorted;
use spec_admit::Admitted;
use spec_core::{Goal, Spec};
use std::alloc::Global;
use std::mem;
use term_core::{OutOfMemory, Seq};
use term_order::TermOrder;

/// Adds the goal after the others if it may be one, and answers whether it may.
pub fn add_goal<O: TermOrder>(
    alloc: Global,
    admitted: &mut Admitted<O>,
    goal: Goal,
) -> Result<bool, OutOfMemory>
    ensures added { IfOk result (λ r. IsTrue r ↔ MayBeAdded admitted.old.spec goal) }
    ensures spec { IfOk result (λ r. admitted.new.spec
        ≡ with_goals admitted.old.spec (goals_after r admitted.old.spec.goals goal)) }
    ensures order { admitted.new.order ≡ admitted.old.order }
{
    if !may_be_added(alloc, &admitted.spec, &goal)? {
        return Ok(false);
    }
    admitted.spec.goals.push(goal)?;
    Ok(true)
}

/// Whether the goal may be one more of the specification's.
fn may_be_added(alloc: Global, spec: &Spec, goal: &Goal) -> Result<bool, OutOfMemory>
    ensures { IfOk result (λ r. IsTrue r ↔ MayBeAdded spec.now goal.now) }
{
    Ok(
        spec.goals.len() < u32::MAX as usize
            && spec.goal_named(&goal.name).is_none()
            && goal_is_sorted(alloc, &spec.sig, goal)?,
    )
}

/// Takes off all goals but the first ones.
pub fn keep_first<O: TermOrder>(alloc: Global, admitted: &mut Admitted<O>, count: usize)
    ensures spec { admitted.new.spec
        ≡ with_goals admitted.old.spec (take count admitted.old.spec.goals) }
    ensures order { admitted.new.order ≡ admitted.old.order }
{
    let mut goals = mem::replace(&mut admitted.spec.goals, Seq::new(alloc)).into_vec();
    goals.truncate(count);
    admitted.spec.goals = Seq::from_vec(goals);
}
