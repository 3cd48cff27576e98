//! An order on terms for worked examples.
//!
//! Uses spec_core's naturals with addition, which it orders, and meets the laws of term_order
//! (`specs/SumOrder.antt`). The crates whose definitions speak of any order take it for their
//! worked examples. So no edit of an ordering that the program uses reaches them.
//!
//! Proved: The order of sums is an order on terms and has ranks (`sums_are_ordered`).
//! `worked_examples`.
#![tactic(auto)]

mod laws;

pub use laws::{sums_are_ordered, worked_examples};
