//! Whether rows of patterns match all values, and whether guards form a complete decision tree.
//!
//! Uses term_core and spec_core. `specs/Values.antt` and `specs/GroupTree.antt` say what is
//! asked, and `specs/Named.antt` which missing values are named.
//!
//! Proved: `covers`: that each list of values matches some row of linear patterns, or values that
//! match none, which are the ones named in the order of constructors. `tree`: whether the guards
//! of some rules form a complete decision tree, in both directions. `rows_of`: the rows of a
//! function's left sides, which match what these match. What is named is missing, and one list is
//! named (`one_named`). A row of linear patterns admits its instances (`admits_instances`).
//! `tree`, asked of the rules with a left side, decides whether the left side's group is whole
//! (`tree_decides_groups`). `worked_examples`.
//!
//! Tested: Groups and functions by hand, through the program.
//!
//! Neither: Time, which may be exponential if rows overlap.
#![tactic(auto)]

mod answers;
mod columns;
mod coverage;
mod decision;
mod groups;
mod laws;
mod left_sides;
mod naming;
mod openings;
mod rows;

pub use answers::{Coverage, Tree};
pub use coverage::covers;
pub use groups::tree;
pub use laws::{admits_instances, one_named, tree_decides_groups, worked_examples};
pub use left_sides::rows_of;
