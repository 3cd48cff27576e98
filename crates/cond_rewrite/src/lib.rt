//! Conditional rewriting and case rewriting of a clause at a place.
//!
//! Uses matching and clause_core, after Bouhoula, Kounalis and Rusinowitch (1992) and Bouhoula
//! and Rusinowitch (1995). [`rewrite_at`] uses one rule whose guards are among the premises of
//! the clause. [`case_rewrite`] uses each rule of one left side, and makes a clause for each with
//! the rule's guards as further premises. Each answers as the step's row in the table of steps
//! does (`specs/RowAnswers.antt`).
//!
//! Proved: `rewrite_at` and `case_rewrite`: the children that the rows of `rule` and `case` make
//! at a place of a clause, tidied and within the limits, or the first condition that isn't met,
//! in both directions. A row has one answer (`one_row_answer`), and says so in any block and by
//! any order (`rows_in_blocks`). A child whose right side is too large isn't built.
//! `is_instance`: whether a term is an instance by a substitution, without building that.
//!
//! Tested: The steps by hand (step_cases).
#![tactic(auto)]

mod cases;
mod children;
mod guards;
mod instances;
mod laws;
mod rewriting;
mod rules;

pub use cases::case_rewrite;
pub use instances::is_instance;
pub use laws::{one_row_answer, rows_in_blocks};
pub use rewriting::rewrite_at;
