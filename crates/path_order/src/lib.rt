//! The lexicographic path ordering, with levels and statuses of symbols.
//!
//! Uses term_core, implements term_order's [`TermOrder`](term_order::TermOrder), and has its
//! ranks by longest_chains. In [`Lpo`] each symbol has a level, which is its precedence, and a
//! status, which orders its arguments (`specs/Above.antt`, `specs/Arranged.antt`). A ground
//! term's rank is the longest chain down from it (`specs/Rank.antt`) in the ordering within a
//! bound (`specs/Bounded.antt`).
//!
//! Proved: `Lpo` is a `TermOrder`. `Lpo::greater` is true exactly where the three cases of the
//! lexicographic path ordering hold, by the levels and statuses of its precedence, whatever the
//! sizes. `Lpo::with` and `Lpo::by_number` have the precedence that they are made with. Levels
//! and statuses that are written out by number order terms as numbers do (`orders_by_number`).
//! Finitely many terms are below each one within a bound (`finitely_many_below`), and a bound of
//! at least the smaller term's depth bounds nothing (`same_within_depth`). `worked_examples`,
//! `rank_examples`.
//!
//! Tested: Thirty pairs of terms by number and forty by levels and statuses, by hand. Equal heads
//! don't double the work, on towers of a hundred levels (term_cases).
#![tactic(auto)]

mod laws;
mod listed;
mod operands;
mod path;

pub use laws::{
    finitely_many_below, orders_by_number, rank_examples, same_within_depth, worked_examples,
};
pub use path::Lpo;
