//! The input of programs of cases: a specification, and cases of it.
//!
//! Uses spec_syntax and sort_check. The specification goes up to the line `end`. Each line after it
//! has the words of a case, none, or a remark that begins with `#`.
//!
//! Proved: It is safe and ends. A specification that is read is well sorted.
//!
//! Tested: By the programs that read their cases with it.
#![tactic(auto)]

mod cases;
mod specifications;

pub use cases::{Case, try_cases};
pub use specifications::{specification, text_of};
