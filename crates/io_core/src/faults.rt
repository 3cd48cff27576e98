//! Why a read or a write failed.

ghost use Rattle.std.specs.Prelude.{◌≡◌};
ghost use Rattle.io_core.specs.declared.faults.ReadError.{ReadError};
ghost use Rattle.io_core.specs.declared.faults.WriteError.{WriteError};

use std::alloc::AllocError;
use std::error::Error;
use std::fmt;
use term_core::OutOfMemory;

/// Why a read gave no bytes.
#[derive(Clone, Copy, Debug, PartialEq, Eq)]
pub enum ReadError {
    /// The file has more bytes than were asked for.
    TooLong,
    /// The file isn't there or can't be read. The store counted a fault.
    Failed,
    /// There was no memory for the bytes or for the name.
    OutOfMemory,
}

/// Why a write took nothing.
#[derive(Clone, Copy, Debug, PartialEq, Eq)]
pub enum WriteError {
    /// The sink couldn't take the bytes. It counted a fault.
    Failed,
    /// There was no memory for the bytes.
    OutOfMemory,
}

impl fmt::Display for ReadError {
    ghost use Rattle.std.specs.Prelude.{Some};
    ghost use Rattle.io_core.specs.Words.{read_words};

    ghost output = { λ error. Some (read_words error) };

    fn fmt<W: fmt::Write>(&self, f: &mut fmt::Formatter<W>) -> fmt::Result {
        match self {
            ReadError::TooLong => f.write_str("the file is too long"),
            ReadError::Failed => f.write_str("the file can't be read"),
            ReadError::OutOfMemory => f.write_str("out of memory"),
        }
    }
}

impl fmt::Display for WriteError {
    ghost use Rattle.std.specs.Prelude.{Some};
    ghost use Rattle.io_core.specs.Words.{write_words};

    ghost output = { λ error. Some (write_words error) };

    fn fmt<W: fmt::Write>(&self, f: &mut fmt::Formatter<W>) -> fmt::Result {
        match self {
            WriteError::Failed => f.write_str("the bytes can't be written"),
            WriteError::OutOfMemory => f.write_str("out of memory"),
        }
    }
}

impl Error for ReadError {}

impl Error for WriteError {}

impl From<OutOfMemory> for ReadError {
    ghost from_gives = { λ _ e. e ≡ ReadError.OutOfMemory };

    fn from(_error: OutOfMemory) -> ReadError {
        ReadError::OutOfMemory
    }
}

impl From<AllocError> for ReadError {
    ghost from_gives = { λ _ e. e ≡ ReadError.OutOfMemory };

    fn from(_error: AllocError) -> ReadError {
        ReadError::OutOfMemory
    }
}

impl From<OutOfMemory> for WriteError {
    ghost from_gives = { λ _ e. e ≡ WriteError.OutOfMemory };

    fn from(_error: OutOfMemory) -> WriteError {
        WriteError::OutOfMemory
    }
}

impl From<AllocError> for WriteError {
    ghost from_gives = { λ _ e. e ≡ WriteError.OutOfMemory };

    fn from(_error: AllocError) -> WriteError {
        WriteError::OutOfMemory
    }
}
