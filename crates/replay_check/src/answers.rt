//! Whether a report is accepted, and why the tests stop.

ghost use Rattle.std.specs.Prelude.{◌≡◌};
ghost use Rattle.replay_check.specs.declared.answers.Stop.TheVariants.{
  OutOfMemory as out_of_memory,
};

use clause_core::ReplayWhy;
use term_core::OutOfMemory;

/// Whether a report is accepted.
#[derive(Clone, Copy, Debug, PartialEq, Eq)]
pub enum Answer {
    Yes,
    /// The line of the report at which it is first refused, which counts from 1, and the reason.
    No { line: u64, why: ReplayWhy },
}

/// Why the tests of a report stop before its end.
#[derive(Clone, Copy, Debug, PartialEq, Eq)]
pub(crate) enum Stop {
    /// At this line a test refuses the report for this reason.
    Refused { line: u64, why: ReplayWhy },
    OutOfMemory,
}

impl From<OutOfMemory> for Stop {
    ghost from_gives = { λ _ e. e ≡ out_of_memory };

    fn from(_error: OutOfMemory) -> Stop {
        Stop::OutOfMemory
    }
}
