//! Normal forms of terms by the rules without guards.
//!
//! Uses matching. For many terms, make one [`Rewriter`].
//!
//! Proved: `normalize`: the chain of leftmost-innermost uses of unguarded rules to a normal form,
//! with places and rules, within the budget, or Spent exactly where it is longer. A term has at
//! most one normal form, by one chain (`one_normal_form`), and at most one answer for a budget
//! (`one_answer`). `worked_examples`.
//!
//! Tested: Terms by hand (step_cases).
#![tactic(auto)]

mod first;
mod laws;
mod normal;
mod rewriter;
mod rewritten;
mod rules;
mod trace;
mod walk;

pub use laws::{one_answer, one_normal_form, worked_examples};
pub use normal::{Normal, normalize};
pub use rewriter::Rewriter;
