//! The text on the goals that claims leave open.
//!
//! Uses open_goals, which draws where the proof of a goal stops, search_claims for counterexamples
//! that deeper searches find, freer_search for proofs that the usual search misses, claimed_goals
//! for the goals that a later claim may use, and report_pages for values. `specs/` says what a
//! section is (`Sections.antt`), and what the text is (`OpenPages.antt`).
//!
//! Proved: `open_page`: the text has a section for each claim that leaves a goal open that is asked
//! for, over the goals that the claims before it prove, and for no other one; after it the values
//! of the first counterexample that searches to the depths from 1 to 8 find, if one does; and a
//! note only if there is a proof with the number of nodes that it names. If there is no such claim,
//! it is the line that says so.
//!
//! Neither: That there is a note where there is a proof.
#![tactic(auto, using(page_core::proofs::Pages::drawing))]

mod deeper;
mod freer;
mod pages;
mod sections;

pub use pages::open_page;
