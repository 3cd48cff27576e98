//! The page of an accepted report.
//!
//! Uses proof_trees for proofs, ground_eval for what sides give under values, claimed_goals for the
//! goals that a later claim may use, and proof_words and page_core, which draw. `specs/` says what
//! is on the page: a list of the goals (`ReportPages.antt`), and a section for each claim
//! (`Claims.antt`).
//!
//! Proved: `report_page`: the text is that of a page with the title, a line for each goal that is
//! asked for and how its claim ends, and a section for each claim: the tree of its proof over the
//! goals that the claims before it prove; or the values under which it fails, and for each side its
//! value and cost by evaluation, with the first place marked at which two values differ; or how far
//! it was tried. `draw_values`: a line for each variable's value. `worked_examples`.
//!
//! Neither: That the path to the first difference leads to terms that differ.
#![tactic(auto, using(page_core::proofs::Pages::drawing))]

mod claims;
mod counting;
mod differing;
mod evaluating;
mod laws;
mod open_claims;
mod pages;
mod refuting;

pub use laws::worked_examples;
pub use pages::{draw_title, is_asked, report_page};
pub use refuting::draw_values;
