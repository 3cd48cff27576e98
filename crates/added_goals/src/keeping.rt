//! Whether the goals of a list are among those of another one, in their order.

ghost use Rattle.std.specs.Prelude.{◌↔◌, List, ◌∷◌, IsTrue};
ghost use Rattle.spec_core.specs.declared.records.Goal.{Goal as GoalOf};
ghost use Rattle.added_goals.specs.Additions.{AreKept};

use crate::same::Same;
use spec_core::Goal;
use term_core::front;

/// Whether the old goals are among the new ones, each as it was and in their order.
pub(crate) fn are_kept(old: &[Goal], new: &[Goal]) -> bool
    ensures { IsTrue result ↔ AreKept old.now new.now }
{
    let mut awaited = old;
    for goal in new {
        awaited = behind(awaited, goal);
    }
    awaited.is_empty()
}

/// The goals that are still awaited after this one, of those that were before it.
fn behind<'a>(awaited: &'a [Goal], next: &Goal) -> &'a [Goal]
    ensures { (new : List GoalOf) →
        AreKept awaited.now (next.now ∷ new) ↔ AreKept result.now new }
{
    match front(awaited) {
        Some((goal, rest)) => { if next.is_same(goal) { rest } else { awaited } }
        None => awaited,
    }
}
