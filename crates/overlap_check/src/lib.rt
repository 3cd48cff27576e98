//! Whether the rules of a specification are linear, and whether their left sides overlap.
//!
//! Uses term_core, spec_core, substitutions and unifier.
//!
//! Proved: `linear`: that all left sides are linear, or the first rule with a variable twice on
//! its left side, and the least such variable. `overlap`: that there is no overlap, or the first
//! pair of rules with different left sides that some values match both, with the values that are
//! named for it. One list of values is named at most (`one_naming`), a specification has one
//! answer of each kind (`one_answer`), and left sides overlap where two rules are named
//! (`both_overlap`). `worked_examples`.
//!
//! Tested: Rules by hand, through the program.
#![tactic(auto)]

mod answers;
mod clashes;
mod common_values;
mod laws;
mod linearity;
mod overlaps;

pub use answers::{Linear, Overlap};
pub use laws::{both_overlap, one_answer, one_naming, worked_examples};
pub use linearity::linear;
pub use overlaps::overlap;
