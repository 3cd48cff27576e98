//! Statuses and their codes.

ghost use Rattle.std.specs.Prelude.{◌≡◌};
ghost use Rattle.file_replies.specs.Codes.{code_of};

/// How a call of the program ended.
#[derive(Clone, Copy, Debug, PartialEq, Eq)]
pub enum Status {
    /// The command did all that it was asked for.
    Done,
    /// A goal was refuted.
    Refuted,
    /// No goal was refuted, and one was left open.
    Open,
    /// The file is too long or isn't accepted, or the term isn't one.
    Refused,
    /// A report wasn't accepted.
    No,
    /// A file couldn't be read.
    ReadFault,
    /// The output couldn't be written.
    WriteFault,
    /// The words are no command.
    Usage,
    OutOfMemory,
}

/// A whole text, and the status with it.
#[derive(Drop)]
pub struct Ending {
    pub text: Vec<u8>,
    pub status: Status,
}

impl Status {
    /// The exit status of the program.
    pub fn code(&self) -> u8
        ensures { result ≡ code_of self.now }
    {
        match self {
            Status::Done => 0,
            Status::Refuted => 1,
            Status::Open => 2,
            Status::Refused => 3,
            Status::No => 4,
            Status::ReadFault => 5,
            Status::WriteFault => 6,
            Status::Usage => 7,
            Status::OutOfMemory => 8,
        }
    }
}
