//! A freer search for proofs: one that tries other steps than the first possible one.
//!
//! Uses choice_tree, which keeps the nodes and the choices at each, and proof_search, whose
//! `Guided` it answers. A routine proof takes at each node the first step that is possible. This
//! search goes depth first through further choices, each of which has a cost: along a path their
//! sum is at most a bound, which rises from 0. So the paths that stray least come first. `steps.rt`
//! says in which order the choices at a node are tried, and each kind has a file. sample_values
//! tries what is made more general.
//!
//! The search itself is trusted with nothing. Its tree is written as the steps of a block
//! (`ordering.rt`), and `checking.rt` takes these again from the goal's clause. Only what is a
//! proof there is answered.
//!
//! Proved: `freer`, for every order: the steps of a block that is answered prove the goal by the
//! lemmas, there are at most as many as is asked for, and the claim isn't too long for a report.
//! The claim is accepted after any claims that prove the lemmas and aren't on the goal.
//!
//! Tested: Goals that no routine proof proves, by hand (freer_cases).
//!
//! Neither: That `freer` finds a proof, and which choices it tries.
#![tactic(auto)]

mod bounds;
mod checking;
mod covering;
mod finding;
mod forced;
mod generalizing;
mod ordering;
mod referring;
mod rewriting;
mod ruling;
mod searching;
mod steps;

pub use bounds::{FREER_GOAL, FreerBounds};
pub use finding::freer;
