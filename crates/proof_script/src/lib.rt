//! The text of a report, both ways: lines of words, one spelling for each report.
//!
//! Uses clause_core, whose reports and steps it writes, and spec_text for names. `specs/` says
//! what the text of each step, claim and report is, which reports have a text, and which line of
//! some bytes is the first that can't continue. It says so by the texts of reports alone, apart
//! from any reader. The readers of words are exact against `specs/LineWords.antt`.
//!
//! Proved: `print_report`, `print_claim`, `print_header`: the text of a report, of a claim and of
//! the first two lines. A text has one report, and lists of claims are read in one way
//! (`one_report`). Bytes have one faulty line at most, and a report's text none (`one_fault`).
//! `read_step`: the step whose line the bytes are and which may be in a report, or that there is
//! none, in both directions. `worked_examples`, `fault_examples`, `refused_steps`.
//!
//! Tested: Lines of each step and claim, through the program.
#![tactic(auto)]

mod equation_steps;
mod errors;
mod last_words;
mod laws;
mod limits;
mod line_words;
mod names;
mod numbers;
mod paths;
mod place_steps;
mod place_words;
mod places;
mod printing;
mod step_lines;
mod step_words;
mod steps;
mod term_lists;
mod term_steps;
mod term_words;
mod terms;
mod verbs;
mod words;

pub use errors::StepLineError;
pub use laws::{fault_examples, one_fault, one_report, refused_steps, worked_examples};
pub use limits::MOST_CLAIM_BYTES;
pub use line_words::{next_name, next_number, split_line};
pub use names::is_report_name;
pub use printing::{print_claim, print_header, print_report};
pub use step_lines::read_step;
pub use term_words::next_term;
pub use terms::{after, split_word};
