//! Lemmas for the goals that stay open: they are looked for, proved and kept.
//!
//! Uses term_classes and generalized_clauses, which propose candidates, known_equations and
//! sample_values, which leave most of them out, and proof_ladder, which proves the others. For
//! each goal that isn't proved over what is known [`explore`] looks for lemmas in two ways. From
//! below: terms by size, of which two that agree at all samples make a candidate. From the goal:
//! generalizations of the clauses at which its proofs are stuck. Both are gone first with the
//! provers of `prove`, then the goal is tried alone by the freer search, and then both are gone
//! with that search too (`stages.rt`). What a proved goal's block names is kept, and all else is
//! dropped: a lemma that no step names was the first possible step nowhere, so the block stays the
//! same without it.
//!
//! Proved: Every function is safe and ends. What the provers answer can be written in a report.
//!
//! Tested: Which problems of the literature get lemmas, and with how much work (`tests/explore`).
//!
//! Neither: What is found. It is a proposal, which `explorations` checks as a whole.
#![tactic(auto)]

mod bottom_up;
mod bounds;
mod candidates;
mod directed;
mod entries;
mod exploring;
mod goals;
mod library;
mod places;
mod progress;
mod proving;
mod renaming;
mod stages;
mod writing;

pub use bounds::ExploreBounds;
pub use exploring::{Sources, explore};
pub use progress::Progress;
pub use writing::Proposal;
