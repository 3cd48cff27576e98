//! When a report is accepted, and where it is first refused.
//!
//! Uses clause_core for the steps, their table and the types of reports, and spec_core for goals
//! and verdicts; its worked examples take the order of sample_specs. `specs/Strict.antt`,
//! `specs/Blocks.antt`, `specs/Claims.antt` and `specs/Accepting.antt`, in this order, say what
//! is accepted: which children and references of a block's nodes are allowed, when steps prove a
//! clause, on which goals claims are, and when a report of claims is accepted.
//! `specs/Refusals.antt` has the tests of a report in their order, each with its line and reason.
//!
//! Proved: A report on a well sorted specification is accepted or has one first refusal, with its
//! line and reason, and never both (`one_verdict`). `allowed`: All exactly where each child and
//! each reference of a block is allowed, else the first node where one isn't. What the steps of a
//! block make meets what `allowed` requires, if each node has its step (`blocks_are_whole`).
//! `worked_examples`.
//!
//! Tested: Reports by hand, through the program.
#![tactic(auto)]

mod allowing;
mod answers;
mod laws;

pub use allowing::allowed;
pub use answers::Allowed;
pub use laws::{blocks_are_whole, one_verdict, worked_examples};
