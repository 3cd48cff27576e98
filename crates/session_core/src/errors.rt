//! Why a command isn't read, carried out or taken back.

use clause_core::Why;
use std::error::Error;
use std::fmt;
use term_core::OutOfMemory;

/// Why a command isn't carried out.
#[derive(Clone, Copy, Debug, PartialEq, Eq)]
pub enum SessionError {
    /// A goal is under work already.
    GoalUnderWork,
    /// The specification has no goal of this name.
    UnknownGoal,
    /// The goal is proved already.
    GoalTwice,
    /// No goal is under work.
    NoGoal,
    /// The step isn't defined at its node.
    Step(Why),
    /// A child or a reference isn't allowed.
    NotSmaller,
    /// The goal's clause passes a limit of clauses, or the text of its claim its limit.
    Limit,
    OutOfMemory,
}

impl fmt::Display for SessionError {
    fn fmt<W: fmt::Write>(&self, f: &mut fmt::Formatter<W>) -> fmt::Result {
        match self {
            SessionError::GoalUnderWork => f.write_str("goal under work"),
            SessionError::UnknownGoal => f.write_str("unknown goal"),
            SessionError::GoalTwice => f.write_str("goal twice"),
            SessionError::NoGoal => f.write_str("no goal"),
            SessionError::Step(why) => write!(f, "the step is not defined: {why:?}"),
            SessionError::NotSmaller => f.write_str("not smaller"),
            SessionError::Limit => f.write_str("limit"),
            SessionError::OutOfMemory => f.write_str("out of memory"),
        }
    }
}

impl Error for SessionError {}

impl From<OutOfMemory> for SessionError {
    ghost use Rattle.std.specs.Prelude.{◌≡◌};
    ghost use Rattle.session_core.specs.declared.errors.SessionError.TheVariants.{
      OutOfMemory as no_memory,
    };

    ghost from_gives = { λ _ e. e ≡ no_memory };

    fn from(_error: OutOfMemory) -> SessionError {
        SessionError::OutOfMemory
    }
}

/// Why nothing is taken back.
#[derive(Clone, Copy, Debug, PartialEq, Eq)]
pub enum UndoError {
    /// No command is accepted that isn't taken back.
    Nothing,
}

impl fmt::Display for UndoError {
    fn fmt<W: fmt::Write>(&self, f: &mut fmt::Formatter<W>) -> fmt::Result {
        f.write_str("nothing to undo")
    }
}

impl Error for UndoError {}

/// Why bytes aren't read as commands.
#[derive(Clone, Copy, Debug, PartialEq, Eq)]
pub enum CommandError {
    /// The number of the first line that isn't a command or isn't ended, from 1, or of the line
    /// after the last one that is allowed.
    Line { line: u32 },
    OutOfMemory,
}

impl fmt::Display for CommandError {
    fn fmt<W: fmt::Write>(&self, f: &mut fmt::Formatter<W>) -> fmt::Result {
        match self {
            CommandError::Line { line } => write!(f, "line {line}"),
            CommandError::OutOfMemory => f.write_str("out of memory"),
        }
    }
}

impl Error for CommandError {}

impl From<OutOfMemory> for CommandError {
    ghost use Rattle.std.specs.Prelude.{◌≡◌};
    ghost use Rattle.session_core.specs.declared.errors.CommandError.TheVariants.{
      OutOfMemory as no_memory,
    };

    ghost from_gives = { λ _ e. e ≡ no_memory };

    fn from(_error: OutOfMemory) -> CommandError {
        CommandError::OutOfMemory
    }
}
