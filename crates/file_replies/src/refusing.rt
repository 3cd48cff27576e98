//! The line of a refusal, and the status after a text.

ghost use Rattle.std.specs.Prelude.{◌≡◌, ◌≤◌};
ghost use Rattle.accepted_spec.specs.Tellings.{IsLineOf};
ghost use Rattle.file_replies.specs.Stops.{Refuses, status_ended};

use crate::statuses::Status;
use crate::stops::Stop;
use accepted_spec::Refusal;
use io_core::{Sink, WriteError, write_all};
use std::alloc::Global;

/// Writes the line of a refusal.
pub fn refuse<S: Sink>(alloc: Global, refusal: Refusal, out: &mut S) -> Status
    ensures refuses { Refuses (IsLineOf refusal) (S.written out.old) (S.written out.new)
        (S.faults out.old) (S.faults out.new) result }
    ensures writes { S.faults out.old ≤ S.faults out.new }
{
    match refusal {
        Refusal::Line(line) => ended(Status::Refused, write_all(out, alloc, &line)),
        Refusal::OutOfMemory => Status::OutOfMemory,
    }
}

/// The status of a command whose text was written, or wasn't.
pub fn ended(status: Status, wrote: Result<(), WriteError>) -> Status
    ensures { result ≡ status_ended status wrote }
{
    match wrote {
        Ok(()) => status,
        Err(error) => Stop::from(error).status(),
    }
}
