//! A step with what it makes.

use clause_core::{Children, Step};

/// A step at a node, with what it makes there.
#[derive(Drop)]
pub struct Move {
    pub step: Step,
    pub made: Children,
}
