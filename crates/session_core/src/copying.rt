//! Copies of commands.

ghost use Rattle.std.specs.Prelude.{◌≡◌, IfOk};

use crate::commands::Command;
use block_steps::copy_step;
use std::alloc::Global;
use term_core::OutOfMemory;

/// A copy of the command.
pub(crate) fn copy_command(alloc: Global, command: &Command) -> Result<Command, OutOfMemory>
    ensures { IfOk result (λ made. made ≡ command.now) }
{
    Ok(match command {
        Command::Goal(name) => Command::Goal(name.copy(alloc)?),
        Command::Step(step) => Command::Step(copy_step(alloc, step)?),
        Command::Undo => Command::Undo,
    })
}
