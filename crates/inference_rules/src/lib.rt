//! Proof steps, taken: what a step makes at a node of a block.
//!
//! Uses clause_core, by whose table of steps it answers, and descent, which says what follows.
//! cond_rewrite rewrites by rules, and test_sets splits variables. Each step has a function of
//! its own, in a file for its kind. It answers what its row says if no nodes come before the
//! children, and [`children`] counts those once for all (`specs/Counting.antt`).
//!
//! Proved: `children`, for every order: what each of the sixteen steps makes at a node of a block
//! by the table (`specs/Answers.antt`), or the first condition of its row that isn't met, in both
//! directions. What is made can be in nodes (`specs/Nodes.antt`). If the specification is
//! admitted and the goals that may be used are true, a failing instance of the node goes on to a
//! child or to a node that is referred to.
//!
//! Tested: By hand, for each step, cases in which it is defined and the reasons of its own
//! conditions; the limits of clauses for nine steps, and of nodes for `case`, `cover`,
//! `decompose` and `rule` (step_cases).
#![tactic(auto)]

mod closing;
mod covering;
mod generalizing;
mod making;
mod nodes;
mod referring;
mod replacing;
mod rewriting;
mod simplifying;
mod solving;
mod steps;
mod subsuming;
mod terms;

pub use clause_core::{Child, Children, Reference, Why};
pub use nodes::{Node, StepError};
pub use steps::children;
