//! A block that is being made: its nodes so far, and the links of those whose steps are taken.
//!
//! Uses inference_rules, whose `children` takes a step, block_links, which parts clauses from
//! links, and spec_admit for an admitted specification. `specs/Taken.antt` says what taking is.
//! [`copy_step`] and [`copy_place`] copy what a line of a block says. The lines of accepted
//! reports have symbols in range, as the printers of proof_script ask
//! (`proofs/AcceptedInRange.antt`).
//!
//! Proved: `TakenSteps::take`, for every order: the children that the next node's step makes by
//! the table are added as nodes with their links, or the reason for which the step is refused.
//! `add`: the same of what a step makes. `take_back`: the last link and as many nodes as it has
//! children are gone, or nothing if there is no link. `take_steps`: the nodes and links of all
//! steps of a block in which each is defined.
#![tactic(auto)]

mod copying;
mod taken_steps;
mod whole_blocks;

pub use copying::{copy_place, copy_step};
pub use taken_steps::TakenSteps;
pub use whole_blocks::take_steps;
