//! The reader of reports, exact with the first faulty line.
//!
//! Uses proof_script, whose readers of words and steps it puts together, and whose definitions it
//! meets. A text is read line by line in one pass.
//!
//! Proved: `read_report`: the report whose text the bytes are, or the first line that can't
//! continue, which is there exactly where the bytes are no report's text.
//!
//! Tested: Reports byte by byte, with faults of each line, through the program.
#![tactic(auto)]

mod claims;
mod errors;
mod first_lines;
mod headers;
mod lines;
mod reports;
mod values;

pub use errors::ReportError;
pub use reports::read_report;
