//! Test sets: constructor patterns that cover a variable of a clause.
//!
//! Uses coverage_check, which decides whether patterns cover a sort, and clause_core, whose table
//! of steps has the row `cover`. A test set is the list of the sort's constructors applied to
//! variables (`specs/TestSets.antt`).
//!
//! Proved: `test_set`: the constructors of a sort in order, which cover it (`test_sets_cover`).
//! `are_patterns_for`: whether patterns may be put for a variable. `cover`: one child for each
//! pattern, or a value of the sort that is an instance of none, or that a child passes a limit,
//! each exactly (`specs/Covers.antt`), as its row says (`cover_is_its_row`). `worked_examples`.
//!
//! Tested: The step by hand (step_cases).
//!
//! Neither: Time, which may be exponential if patterns overlap.
#![tactic(auto)]

mod answers;
mod children;
mod covering;
mod fitting;
mod laws;
mod patterns;
mod sets;

pub use answers::CoverError;
pub use covering::cover;
pub use fitting::are_patterns_for;
pub use laws::{cover_is_its_row, test_sets_cover, worked_examples};
pub use sets::test_set;
