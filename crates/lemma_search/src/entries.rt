//! What is known of one goal.

use clause_core::{Block, Clause, Step};
use spec_core::Spec;
use std::alloc::Global;
use term_core::OutOfMemory;

/// Where a goal comes from.
#[derive(Clone, Copy, PartialEq, Eq)]
pub(crate) enum Origin {
    /// The file.
    File,
    /// It is a lemma that was found.
    Found,
}

/// A goal or a lemma, with what is claimed of it.
#[derive(Drop)]
pub(crate) struct Entry {
    pub(crate) origin: Origin,
    pub(crate) clause: Clause,
    /// The lines of its claim.
    pub(crate) claim: Vec<u8>,
    /// The entries that its block names, by number.
    pub(crate) uses: Vec<u32>,
}

/// The goals of the specification that a block names, by number.
pub(crate) fn uses_of(alloc: Global, spec: &Spec, block: &Block) -> Result<Vec<u32>, OutOfMemory> {
    let mut uses = Vec::new(alloc);
    for step in block.steps.as_slice() {
        if let Step::ByLemma(name, _) | Step::Lemma(name, ..) = step
            && let Some((number, _goal)) = spec.goal_named(name)
            && let Ok(number) = u32::try_from(number)
        {
            uses.push(number)?;
        }
    }
    Ok(uses)
}
