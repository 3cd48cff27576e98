//! The printed form of a raw specification, which reads back as the same one.
//!
//! Uses spec_text and the raw specifications of spec_grammar. `specs/` says what the printed form
//! is, and when two raw specifications are the same apart from places. [`upgrade`] prints in
//! format 2, whatever the specification's own format is.
//!
//! Proved: `print` is the printed form of each raw specification, and `upgrade` that in format 2.
//! What is printed of one that a text derives is a text. All that this text derives is the same
//! apart from places, and its printed form is the same bytes (`printed_reads_back`). In format 2
//! it is printed again without a change, and has at most three times the bytes of the text
//! (`upgrade_reads_back`). `printed_examples`.
#![tactic(auto)]

mod laws;
mod printing;

pub use laws::{printed_examples, printed_reads_back, upgrade_reads_back};
pub use printing::{print, upgrade};
