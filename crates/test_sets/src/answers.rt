//! Why no patterns are put for a variable.

ghost use Rattle.std.specs.Prelude.{◌≡◌};
ghost use Rattle.test_sets.specs.declared.answers.CoverError.TheVariants.{OutOfMemory as no_memory};

use std::fmt;
use term_core::{OutOfMemory, Term};

/// Why no patterns are put for a variable.
#[derive(Drop)]
pub enum CoverError {
    /// The value, which has the variable's sort, matches no pattern.
    NotCovering { value: Term },
    /// A child passes a limit of clauses.
    Limit,
    OutOfMemory,
}

impl From<OutOfMemory> for CoverError {
    ghost from_gives = { λ _ e. e ≡ no_memory };

    fn from(_error: OutOfMemory) -> CoverError {
        CoverError::OutOfMemory
    }
}

impl fmt::Display for CoverError {
    fn fmt<W: fmt::Write>(&self, f: &mut fmt::Formatter<W>) -> fmt::Result {
        f.write_str(match self {
            CoverError::NotCovering { value: _ } => "not covering",
            CoverError::Limit => "limit",
            CoverError::OutOfMemory => "out of memory",
        })
    }
}
