//! Whether two rules are one, and what rules and goals share.

use crate::same::Same;
use spec_core::{Equation, Guard, Rule, VarInfo};

impl Same for VarInfo {
    fn is_same(&self, other: &VarInfo) -> bool {
        self.name.is_same(&other.name) && self.sort.is_same(&other.sort)
    }
}

impl Same for Equation {
    fn is_same(&self, other: &Equation) -> bool {
        self.left.is_same(&other.left) && self.right.is_same(&other.right)
    }
}

impl Same for Guard {
    fn is_same(&self, other: &Guard) -> bool {
        self.test.is_same(&other.test) && self.wanted == other.wanted
    }
}

impl Same for Rule {
    fn is_same(&self, other: &Rule) -> bool {
        self.vars.is_same(&other.vars)
            && self.left.is_same(&other.left)
            && self.right.is_same(&other.right)
            && self.guards.is_same(&other.guards)
    }
}
