//! The lines that are written about a report that is replayed.
//!
//! Uses clause_core, which has the claims of a report and the reasons why one isn't accepted.
//! `specs/Lines.antt` has each line as bytes.
//!
//! Proved: `yes_line`, `load_lines`, `no_line`, `reason`: the lines that are written of a report,
//! byte by byte, and the words of a reason.
//!
//! Tested: Each reason, through the program.
#![tactic(auto)]

mod lines;

pub use lines::{load_lines, no_line, reason, yes_line};
