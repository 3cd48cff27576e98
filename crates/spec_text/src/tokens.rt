//! Tokens, and faults of the scanner.

ghost use Rattle.std.specs.Prelude.{◌≡◌};
ghost use Rattle.spec_text.specs.declared.tokens.ScanError.TheVariants.{OutOfMemory};

use std::alloc::{AllocError, AllocFailed};
use std::error::Error;
use std::fmt;

/// What a token is.
#[derive(Clone, Copy, Debug, PartialEq, Eq)]
pub enum TokenKind {
    Word,
    Number(u32),
    LeftPar,
    RightPar,
    Comma,
    Colon,
    Equals,
    Bar,
    Arrow,
}

/// A token of a text, with the place of its first byte and the number of its bytes.
#[derive(Clone, Copy, Debug, PartialEq, Eq)]
pub struct Token {
    pub kind: TokenKind,
    pub at: usize,
    pub len: usize,
}

/// Why a text has no tokens: a fault of the text, with its place in bytes, or memory.
#[derive(Clone, Copy, Debug, PartialEq, Eq)]
pub enum ScanError {
    Text { at: usize },
    OutOfMemory,
}

impl fmt::Display for ScanError {
    ghost use Rattle.std.specs.Prelude.{Some};
    ghost use Rattle.spec_text.specs.Tokens.{error_text};

    ghost output = { λ error. Some (error_text error) };

    fn fmt<W: fmt::Write>(&self, f: &mut fmt::Formatter<W>) -> fmt::Result {
        match self {
            ScanError::Text { at } => write!(f, "text at {at}"),
            ScanError::OutOfMemory => f.write_str("out of memory"),
        }
    }
}

impl Error for ScanError {}

impl From<AllocError> for ScanError {
    ghost from_gives = { λ _ e. e ≡ OutOfMemory };

    fn from(_error: AllocError) -> ScanError {
        ScanError::OutOfMemory
    }
}

impl<T: Drop> From<AllocFailed<T>> for ScanError {
    ghost from_gives = { λ _ e. e ≡ OutOfMemory };

    fn from(_error: AllocFailed<T>) -> ScanError {
        ScanError::OutOfMemory
    }
}
