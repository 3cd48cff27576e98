//! Whether two goals are one.

use crate::same::Same;
use spec_core::Goal;

impl Same for Goal {
    fn is_same(&self, other: &Goal) -> bool {
        self.name.is_same(&other.name)
            && self.vars.is_same(&other.vars)
            && self.premises.is_same(&other.premises)
            && self.conclusions.is_same(&other.conclusions)
    }
}
