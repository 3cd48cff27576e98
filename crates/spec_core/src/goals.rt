//! The goal of a name.

ghost use Rattle.std.specs.Prelude.{◌≡◌, ◌↔◌, ℕ, Some, IsTrue, MatchOption, slice_get};
ghost use Rattle.spec_core.specs.declared.records.Goal.{Goal as GoalOf};

use crate::records::{Goal, Spec};
use term_core::Name;

impl Goal {
    /// Whether the goal has this name.
    pub fn has_name(&self, name: &Name) -> bool
        ensures { IsTrue result ↔ (self.now.name ≡ name.now) }
    {
        self.name.as_bytes() == name.as_bytes()
    }
}

impl Spec {
    /// The goal of this name, after its number.
    pub fn goal_named(&self, name: &Name) -> Option<(usize, &Goal)>
        ensures { MatchOption result
            ((number : ℕ) (goal : GoalOf) → slice_get self.now.goals number ≡ Some goal →
            goal.name ≡ name.now → ⊥)
            (λ found. (slice_get self.now.goals found.0 ≡ Some found.1.now)
            × (found.1.now.name ≡ name.now)) }
    {
        for (number, goal) in self.goals.as_slice().iter().enumerate() {
            if goal.has_name(name) {
                return Some((number, goal));
            }
        }
        None
    }
}
