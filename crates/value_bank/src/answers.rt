//! Why a term isn't given.

use std::fmt;

/// Why the term at a place isn't given.
#[derive(Clone, Copy, Debug, PartialEq, Eq)]
pub enum TermError {
    /// It has more than 10,000 symbols.
    Large,
    OutOfMemory,
}

impl fmt::Display for TermError {
    fn fmt<W: fmt::Write>(&self, f: &mut fmt::Formatter<W>) -> fmt::Result {
        f.write_str(match self {
            TermError::Large => "more than 10,000 symbols",
            TermError::OutOfMemory => "out of memory",
        })
    }
}
