//! Why a line isn't read as a step.

use std::error::Error;
use std::fmt;
use term_core::OutOfMemory;

/// Why a line isn't read as a step.
#[derive(Clone, Copy, Debug, PartialEq, Eq)]
pub enum StepLineError {
    /// No step has this line.
    NotAStep,
    OutOfMemory,
}

impl fmt::Display for StepLineError {
    ghost use Rattle.proof_script.specs.ErrorText.{error_text};
    ghost use Rattle.std.specs.Prelude.{Some};

    ghost output = { λ error. Some (error_text error) };

    fn fmt<W: fmt::Write>(&self, f: &mut fmt::Formatter<W>) -> fmt::Result {
        match self {
            StepLineError::NotAStep => f.write_str("not a step"),
            StepLineError::OutOfMemory => f.write_str("out of memory"),
        }
    }
}

impl Error for StepLineError {}

impl From<OutOfMemory> for StepLineError {
    ghost use Rattle.std.specs.Prelude.{◌≡◌};
    ghost use Rattle.proof_script.specs.declared.errors.StepLineError.TheVariants.{
      OutOfMemory as no_memory,
    };

    ghost from_gives = { λ _ e. e ≡ no_memory };

    fn from(_error: OutOfMemory) -> StepLineError {
        StepLineError::OutOfMemory
    }
}
