//! Where reading stops.

ghost use Rattle.std.specs.Prelude.{◌≡◌};
ghost use Rattle.spec_syntax.specs.declared.stop.Stop.TheVariants.{OutOfMemory as out_of_memory};

use spec_grammar::LimitKind;
use std::alloc::{AllocError, AllocFailed};
use term_core::OutOfMemory;

/// Where reading stops.
#[derive(Drop)]
pub(crate) enum Stop {
    /// How many tokens are left at a fault, and the limit that is passed there; a fault of syntax
    /// passes none.
    Fault(usize, Option<LimitKind>),
    OutOfMemory,
}

impl From<OutOfMemory> for Stop {
    ghost from_gives = { λ _ stop. stop ≡ out_of_memory };

    fn from(_error: OutOfMemory) -> Stop {
        Stop::OutOfMemory
    }
}

impl From<AllocError> for Stop {
    ghost from_gives = { λ _ stop. stop ≡ out_of_memory };

    fn from(_error: AllocError) -> Stop {
        Stop::OutOfMemory
    }
}

impl<T: Drop> From<AllocFailed<T>> for Stop {
    ghost from_gives = { λ _ stop. stop ≡ out_of_memory };

    fn from(_error: AllocFailed<T>) -> Stop {
        Stop::OutOfMemory
    }
}
