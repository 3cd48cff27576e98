//! The tree of nodes that a search for a proof makes, and the choices at a node.
//!
//! Uses inference_rules, whose `children` says what a step makes, and matching. A [`Tree`] keeps
//! the clauses of the nodes, and a [`Branch`] for each node what else is known of it. [`Here`] is a
//! node at which steps are sought, with the places of its clause and the nodes above it.
//! [`Choices`] collects the steps that may be taken there, in the order in which they are tried,
//! with their costs. `fitting.rt` looks for the terms of a step that refers to a clause:
//! equations of that clause become equations of the node, one after the other.
//!
//! Proved: Each function is safe and ends. Each node of a `Tree` can be a node of a block, and so
//! can what `made` answers.
//!
//! Tested: By the search that uses it (freer_cases).
//!
//! Neither: Which terms `closing_lists` and `rewriting_lists` find, and what choices cost. Nobody
//! has to trust them: what a search finds is a proof only once it is checked.
#![tactic(auto)]

mod alike;
mod branches;
mod choices;
mod fitting;
mod here;
mod setting;
mod tree;

pub use branches::Branch;
pub use choices::{Choice, Choices, Kind};
pub use fitting::{closing_lists, rewriting_lists};
pub use here::{Here, falls, reference};
pub use setting::{Lemma, Setting};
pub use tree::Tree;
