//! Clauses that differ at one place: how they compare, and whether the second is within the
//! limits.
//!
//! Uses clauses, their places and comparison of clause_core, and term_order, whose orders keep
//! what is above in each context. `specs/AtPlaces.antt` says how terms compare.
//!
//! Proved: A clause compares with the one whose place holds another term as the two terms there
//! do, for every order (`place_decides`). `relation_at`: that relation, from the terms alone.
//! `within_at`: whether the second clause is within the limits, exactly, before it is built.
#![tactic(auto)]

mod laws;
mod relation;
mod within;

pub use laws::place_decides;
pub use relation::relation_at;
pub use within::within_at;
