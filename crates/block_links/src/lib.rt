//! The links of a block's nodes, without the clauses of children.
//!
//! Uses clause_core for what a step makes, and acceptance for what is allowed in a block. That
//! depends on the relations of children and on references alone (`specs/Laws.antt`). So the
//! crates above take what a step makes apart ([`apart`]): the clauses go to the nodes, and the
//! links are kept for `acceptance::allowed`.
//!
//! Proved: `apart`: the clauses of the children that a step makes, in their order, and the
//! relations of the children and the references without them. `clause_without_sides`: the clause
//! in the place of one that is left out. A node is allowed exactly where it is by these links
//! alone, and the links of a whole block are one (`links_decide`).
#![tactic(auto)]

mod laws;
mod taking_apart;

pub use laws::links_decide;
pub use taking_apart::{apart, clause_without_sides};
