//! Goals as lines of a text, and the names that they need.
//!
//! Uses growing_specs, which tells whether a goal is sorted, and spec_core, which prints terms.
//! A lemma gets the first name `lemma_N` that nothing has, and its variables get letters.
//!
//! Proved: Every function is safe and ends.
//!
//! Tested: That the lines are goals of a text that is accepted (`tests/explore`).
//!
//! Neither: That a line reads back as its goal. `explorations` checks the text as a whole.
#![tactic(auto)]

mod lines;
mod naming;

pub use lines::goal_line;
pub use naming::{SortNames, lemma_name, variables};
