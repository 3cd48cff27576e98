//! Blocks of plain proofs: the steps that prove a goal with a plain proof.
//!
//! Uses plain_proof, which says which goals have a plain proof and how long it is. The
//! specification comes with the order that admits it (`Admitted` of spec_admit). `children` of
//! inference_rules takes steps, block_steps keeps the nodes that they make, and fitting_lists
//! finds the terms of a reference. acceptance says when steps prove a clause.
//! `specs/Choices.antt` says which step each node takes, and `specs/Blocks.antt` which steps are
//! the block.
//!
//! Proved: `plain`, for every order, over an admitted specification: the steps of the goal's
//! plain proof on the first variable that has one of at most a length up to 1,000, and None
//! exactly where no variable has one. These steps prove the goal after any claims and are at most
//! one more than the length. Their claim has at most 300,000 bytes if names are short and there
//! are fewer than 9,999 rules. A goal with a plain proof has such steps (`plain_blocks`) and one
//! list of them (`one_block`, `one_choice`), and they may be in a report (`plain_blocks_stand`).
//!
//! Tested: Goals by hand, at their length and one below it, through the program.
#![tactic(auto)]

mod candidates;
mod choosing;
mod first;
mod laws;
mod making;
mod splitting;

pub use first::plain;
pub use laws::{one_block, one_choice, plain_blocks, plain_blocks_stand};
