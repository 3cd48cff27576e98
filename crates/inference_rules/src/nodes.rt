//! Nodes, and why a step makes nothing.

ghost use Rattle.std.specs.Prelude.{◌≡◌};
ghost use Rattle.inference_rules.specs.Reasons.{error_of_rewriting, error_of_covering};
ghost use Rattle.inference_rules.specs.declared.nodes.StepError.TheVariants.{
  OutOfMemory as out_of_memory,
};

use clause_core::{Clause, RewriteError, Why};
use spec_core::Spec;
use std::alloc::Global;
use std::fmt;
use term_core::OutOfMemory;
use term_order::TermOrder;
use test_sets::CoverError;

/// A node of a block that is made. Its clause is tidied and within the limits of clauses.
#[derive(Drop)]
pub struct Node {
    pub clause: Clause,
}

/// What a step may use: the specification, its order, the nodes of the block, and as lemmas the
/// goals of the numbers `proved`.
#[derive(Drop)]
pub(crate) struct Scope<'a, O: TermOrder> {
    pub(crate) alloc: Global,
    pub(crate) spec: &'a Spec,
    pub(crate) order: &'a O,
    pub(crate) proved: &'a [u32],
    pub(crate) nodes: &'a [Node],
}

/// Why a step makes nothing: the first condition of its row that isn't met, or want of memory.
#[derive(Clone, Copy, Debug, PartialEq, Eq)]
pub enum StepError {
    Why(Why),
    OutOfMemory,
}

impl From<OutOfMemory> for StepError {
    ghost from_gives = { λ _ e. e ≡ out_of_memory };

    fn from(_error: OutOfMemory) -> StepError {
        StepError::OutOfMemory
    }
}

impl From<RewriteError> for StepError {
    ghost from_gives = { λ error e. e ≡ error_of_rewriting error };

    fn from(error: RewriteError) -> StepError {
        match error {
            RewriteError::NoSuchPlace => StepError::Why(Why::NoSuchPlace),
            RewriteError::NoSuchRule => StepError::Why(Why::NoSuchRule),
            RewriteError::DoesNotFit => StepError::Why(Why::DoesNotFit),
            RewriteError::Limit => StepError::Why(Why::Limit),
            RewriteError::OutOfMemory => StepError::OutOfMemory,
        }
    }
}

impl From<CoverError> for StepError {
    ghost from_gives = { λ error e. e ≡ error_of_covering error };

    fn from(error: CoverError) -> StepError {
        match error {
            CoverError::NotCovering { .. } => StepError::Why(Why::NotCovering),
            CoverError::Limit => StepError::Why(Why::Limit),
            CoverError::OutOfMemory => StepError::OutOfMemory,
        }
    }
}

impl fmt::Display for StepError {
    fn fmt<W: fmt::Write>(&self, f: &mut fmt::Formatter<W>) -> fmt::Result {
        match self {
            StepError::Why(why) => write!(f, "the step is not defined: {why:?}"),
            StepError::OutOfMemory => f.write_str("out of memory"),
        }
    }
}
