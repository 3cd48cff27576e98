//! Specifications with further goals: what they are, and the test for one.
//!
//! Uses spec_core, whose specifications it compares, and sort_check, since a signature tells the
//! names of its sorts only by the text that declares them. `specs/Additions.antt` says when goals
//! are added.
//!
//! Proved: `adds_goals`: whether a specification that a text stands for is another one with further
//! goals. `Same::is_same`: whether two values are one, for the parts of specifications. A goal is
//! true with further goals if and only if it is without them (`adding_keeps_meaning`).
//! `worked_examples`.
#![tactic(auto)]

mod adding;
mod goals;
mod keeping;
mod laws;
mod orders;
mod rules;
mod same;
mod signatures;

pub use adding::adds_goals;
pub use laws::{adding_keeps_meaning, worked_examples};
pub use same::{Same, same_all};
