//! Reports, claims and their outcomes, and why a report isn't accepted.

use crate::answers::Why;
use crate::steps::Block;
use term_core::{Name, Seq, Term};

/// Claims on goals, and the budget within which each verdict was found.
#[derive(Drop)]
pub struct Report {
    pub steps: u32,
    pub claims: Seq<Claim>,
}

/// What a report says of the goal of this name.
#[derive(Drop)]
pub struct Claim {
    pub goal: Name,
    pub outcome: Outcome,
}

#[derive(Drop)]
pub enum Outcome {
    /// The steps prove the goal.
    Proved(Block),
    /// The goal fails under these values of its variables, each with the variable's name, in the
    /// order of the goal. `index` is their place in the order of search, from 0.
    Refuted {
        index: u32,
        values: Seq<(Name, Term)>,
    },
    Open(Budget),
}

/// How far a goal that is left open was tried.
#[derive(Clone, Copy, Debug, PartialEq, Eq)]
pub struct Budget {
    /// The depth of the values that were tried.
    pub depth: u32,
    /// How many substitutions were tried.
    pub tried: u32,
    /// How many of these were skipped, since a side had no value within the steps.
    pub skipped: u32,
    /// Whether there are more substitutions of this depth.
    pub cut: bool,
    /// The greatest length of a plain proof that was looked for.
    pub plain: u32,
    /// The greatest number of nodes of a routine proof that was looked for.
    pub nodes: u32,
}

/// Why a report isn't accepted.
#[derive(Clone, Copy, Debug, PartialEq, Eq)]
pub enum ReplayWhy {
    /// The specification has no goal of the claim's name.
    UnknownGoal,
    /// An earlier claim has this goal.
    GoalTwice,
    /// The goal's clause passes a limit, or the step isn't defined at its node.
    Step(Why),
    /// Some nodes have no step.
    Pending,
    /// A child or a reference of the node isn't allowed.
    NotSmaller,
    /// The values don't belong to the goal's variables in their order.
    Variables,
    /// The goal doesn't fail under the values within the report's steps.
    NotFalse,
}
