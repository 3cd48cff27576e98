//! The order of a specification: the path ordering, or the ordering by weights.
//!
//! Uses path_order and kbo_order, the two orderings that a text can choose, and spec_core, whose
//! specifications name theirs (`specs/Orders.antt`). [`AnyOrder`] is one of the two, and keeps
//! the laws of [`TermOrder`](term_order::TermOrder) since each of them does. The crates above
//! take the order of a specification as one notion.
//!
//! Proved: `AnyOrder` is a `TermOrder`: the path ordering or the ordering by weights, with the
//! laws of either. `AnyOrder::of`: the order that a specification names, if that is well sorted.
//! `worked_examples`.
//!
//! Tested: Texts with either order, through the program.
#![tactic(auto)]

mod either;
mod laws;

pub use either::AnyOrder;
pub use laws::worked_examples;
