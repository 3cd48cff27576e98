//! Why bytes aren't read as a report.

use std::error::Error;
use std::fmt;
use term_core::OutOfMemory;

/// Why bytes aren't read as a report.
#[derive(Clone, Copy, Debug, PartialEq, Eq)]
pub enum ReportError {
    /// The number of the first line that can't continue, from 1. A line that is missing at the end
    /// is the one after the last whole line.
    Line { line: u64 },
    OutOfMemory,
}

impl fmt::Display for ReportError {
    ghost use Rattle.report_reader.specs.ErrorText.{error_text};
    ghost use Rattle.std.specs.Prelude.{Some};

    ghost output = { λ error. Some (error_text error) };

    fn fmt<W: fmt::Write>(&self, f: &mut fmt::Formatter<W>) -> fmt::Result {
        match self {
            ReportError::Line { line } => write!(f, "line {line}"),
            ReportError::OutOfMemory => f.write_str("out of memory"),
        }
    }
}

impl Error for ReportError {}

impl From<OutOfMemory> for ReportError {
    ghost use Rattle.std.specs.Prelude.{◌≡◌};
    ghost use Rattle.report_reader.specs.declared.errors.ReportError.TheVariants.{
      OutOfMemory as no_memory,
    };

    ghost from_gives = { λ _ e. e ≡ no_memory };

    fn from(_error: OutOfMemory) -> ReportError {
        ReportError::OutOfMemory
    }
}
