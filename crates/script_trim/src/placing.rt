//! A claim with the goals that are proved before it.

use crate::lemmas::Lemmas;
use clause_core::Report;

/// A claim of the given report by its number, with the goals that are proved before it.
#[derive(Drop)]
pub(crate) struct ClaimAt<'a> {
    pub report: &'a Report,
    pub number: usize,
    pub lemmas: &'a Lemmas,
}

/// A node of a block by its number, with how many nodes the steps before it make.
#[derive(Clone, Copy)]
pub(crate) struct NodeAt {
    pub number: usize,
    pub before: usize,
    /// Set only if no other node has a key by which it may close this one.
    pub alone: bool,
}
