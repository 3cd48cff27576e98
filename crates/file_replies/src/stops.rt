//! Why a report stopped.

ghost use Rattle.std.specs.Prelude.{◌≡◌};
ghost use Rattle.file_replies.specs.Stops.{stop_of, status_of_stop};
ghost use Rattle.file_replies.specs.declared.stops.Stop.TheVariants.{OutOfMemory as out_of_memory};

use crate::statuses::Status;
use io_core::WriteError;
use std::error::Error;
use std::fmt;
use term_core::OutOfMemory;

/// Why a command on an accepted file stopped before its end.
#[derive(Clone, Copy, Debug, PartialEq, Eq)]
pub enum Stop {
    ReadFault,
    WriteFault,
    OutOfMemory,
}

impl Stop {
    pub fn status(self) -> Status
        ensures { result ≡ status_of_stop self }
    {
        match self {
            Stop::ReadFault => Status::ReadFault,
            Stop::WriteFault => Status::WriteFault,
            Stop::OutOfMemory => Status::OutOfMemory,
        }
    }
}

impl fmt::Display for Stop {
    ghost use Rattle.std.specs.Prelude.{Some};
    ghost use Rattle.file_replies.specs.Stops.{stop_text};

    ghost output = { λ stop. Some (stop_text stop) };

    fn fmt<W: fmt::Write>(&self, f: &mut fmt::Formatter<W>) -> fmt::Result {
        match self {
            Stop::ReadFault => f.write_str("a file can't be read"),
            Stop::WriteFault => f.write_str("the output can't be written"),
            Stop::OutOfMemory => f.write_str("out of memory"),
        }
    }
}

impl Error for Stop {}

impl From<WriteError> for Stop {
    ghost from_gives = { λ error stop. stop ≡ stop_of error };

    fn from(error: WriteError) -> Stop {
        match error {
            WriteError::Failed => Stop::WriteFault,
            WriteError::OutOfMemory => Stop::OutOfMemory,
        }
    }
}

impl From<OutOfMemory> for Stop {
    ghost from_gives = { λ _ stop. stop ≡ out_of_memory };

    fn from(_error: OutOfMemory) -> Stop {
        Stop::OutOfMemory
    }
}
