//! Plain proofs: which goals follow by cases of one variable, normal forms and their own
//! instances.
//!
//! Uses normalization, whose leftmost-innermost uses bring the sides to their normal forms,
//! clause_core, whose limits each clause on the way keeps, matching and test_sets.
//! `specs/PlainProofs.antt` says what a plain proof of a goal on a variable is, and how long.
//!
//! Proved: `first_plain`: the first variable, in the goal's order, on which the goal has a plain
//! proof of at most a length up to 1,000, and None exactly where no variable has one. A goal has
//! plain proofs of one length at most on a variable (`one_length`). The step `cover` by the test
//! set makes the cases (`first_steps`). `worked_examples`.
//!
//! Tested: Goals by hand, through the program.
#![tactic(auto)]

mod cases;
mod closing;
mod instances;
mod laws;
mod limits;
mod measuring;
mod occurring;
mod plain;
mod staying;

pub use laws::{first_steps, one_length, worked_examples};
pub use plain::first_plain;
