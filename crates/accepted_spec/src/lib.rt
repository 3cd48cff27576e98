//! From a file's bytes to an admitted specification, or to the line of their first fault.
//!
//! Uses spec_syntax, which reads bytes, sort_check, which has numbers for their names, and
//! spec_admit, which admits by the specification's own order (spec_order's `specs/Orders.antt`).
//! `specs/Meanings.antt` says what bytes stand for, and `specs/Refusals.antt` and
//! `specs/AdmitLines.antt` which line reports which fault.
//!
//! Proved: `specification`: the raw specification that the bytes of a file derive, and what this
//! stands for, which is well sorted and admitted by its own order, with that order. Else the line
//! of the text's first fault, or of the first fault of admission. `ground_term`: the sorted term
//! without variables that bytes stand for over a signature, else the line of their first fault.
//!
//! Tested: Refusals byte by byte, through the program.
#![tactic(auto)]

mod admission;
mod reading;
mod refusals;

pub use reading::{Accepted, ground_term, specification};
pub use refusals::{Refusal, Subject};
