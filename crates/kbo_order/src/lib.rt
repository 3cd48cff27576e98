//! The ordering of Knuth and Bendix, which compares the weights of terms.
//!
//! Uses term_core, implements term_order's [`TermOrder`](term_order::TermOrder), and has its
//! ranks by longest_chains. [`Kbo`] compares the weights of terms first, then their heads by
//! number, and then their arguments from the first on (`specs/Above.antt`). No variable occurs
//! more often in the smaller term.
//!
//! Proved: `Kbo` is a `TermOrder`. `Kbo::greater` is true exactly where the first term's weight
//! has 128 bits and it is above the second one in the ordering by weights. `greater_under` says
//! the same of the instances of two terms by a list. `Kbo::new` has the weights that it is made
//! with, each of 1 to 1000, and each other symbol weighs 1. A ground term's rank is the longest
//! chain down from it (`specs/Rank.antt`). `worked_examples`, `rank_examples`.
//!
//! Tested: Pairs of terms by hand, as rules and in proofs, through the program
//! (`tests/weights.cases`).
#![tactic(auto)]

mod compare;
mod laws;
mod operands;
mod order;
mod totals;
mod variables;

pub use laws::{rank_examples, worked_examples};
pub use order::Kbo;
