//! `SyntaxFault`: the first fault of a text.

ghost use Rattle.std.specs.Prelude.{◌≡◌};
ghost use Rattle.spec_syntax.specs.Scanned.{fault_of_scan};

use spec_grammar::LimitKind;
use spec_text::ScanError;
use std::error::Error;
use std::fmt;

/// Why a text isn't read. Places are in bytes from 0.
#[derive(Clone, Copy, Debug, PartialEq, Eq)]
pub enum SyntaxFault {
    /// The bytes aren't UTF-8 or have no tokens here.
    Text { at: usize },
    /// The first token with which no specification goes on, or the end of the text.
    Syntax { at: usize },
    /// The first token that passes a limit.
    Limit { at: usize, what: LimitKind },
    OutOfMemory,
}

impl fmt::Display for SyntaxFault {
    ghost use Rattle.std.specs.Prelude.{Some};
    ghost use Rattle.spec_syntax.specs.Faults.{fault_text};

    ghost output = { λ fault. Some (fault_text fault) };

    fn fmt<W: fmt::Write>(&self, f: &mut fmt::Formatter<W>) -> fmt::Result {
        match self {
            SyntaxFault::Text { at } => write!(f, "text at {at}"),
            SyntaxFault::Syntax { at } => write!(f, "syntax at {at}"),
            SyntaxFault::Limit { at, what } => write!(f, "limit at {at}: {what}"),
            SyntaxFault::OutOfMemory => f.write_str("out of memory"),
        }
    }
}

impl Error for SyntaxFault {}

impl From<ScanError> for SyntaxFault {
    ghost from_gives = { λ error fault. fault ≡ fault_of_scan error };

    fn from(error: ScanError) -> SyntaxFault {
        match error {
            ScanError::Text { at } => SyntaxFault::Text { at },
            ScanError::OutOfMemory => SyntaxFault::OutOfMemory,
        }
    }
}
