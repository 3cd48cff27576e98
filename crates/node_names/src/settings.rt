//! `Setting`: what stays the same for all nodes of a block.

use clause_core::Step;
use inference_rules::Node;
use spec_core::{Goal, Spec};
use term_core::Name;

/// What stays the same for all nodes of a block.
#[derive(Drop)]
pub(crate) struct Setting<'a> {
    pub(crate) spec: &'a Spec,
    pub(crate) goal: &'a Goal,
    pub(crate) nodes: &'a [Node],
    pub(crate) steps: &'a [Step],
    /// For each sort the name that others are made from.
    pub(crate) stems: Vec<Name>,
}
