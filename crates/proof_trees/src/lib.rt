//! The proof of a goal as a page shows it: a tree of nodes with their clauses, steps and cases.
//!
//! Uses block_steps, which takes the steps again, node_names for names, and proof_words and
//! page_core for what is drawn. `specs/Trees.antt` says how a tree of numbered nodes is drawn from
//! the root down, and `specs/Nodes.antt` what is written of each node and over each case.
//!
//! Proved: `draw_proof`, for every order: what it draws is the block that the steps make by the
//! table from the goal's clause, down from its first node: the clause of each node with the place
//! of its step marked, by names that tell its variables apart, the words of its step, and then all
//! its children, with cases around all that follows from them (`specs/Shown.antt`).
//!
//! Tested: That each node of a block is drawn once (`tests/page`).
#![tactic(auto, using(page_core::proofs::Pages::drawing))]

mod blocks;
mod proofs;
mod trees;

pub use blocks::NamedBlock;
pub use proofs::draw_proof;
