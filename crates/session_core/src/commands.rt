//! What a line of commands asks for.

ghost use Rattle.std.specs.Prelude.{◌≡◌, ◌++◌, ◌∷◌, List, [], OnErr, OnOk};
ghost use Rattle.session_core.specs.declared.commands.Command.{Command as CommandOf};

use clause_core::Step;
use term_core::{Name, OutOfMemory};

/// What a line of commands asks for.
#[derive(Drop)]
pub enum Command {
    /// The goal of this name is put under work.
    Goal(Name),
    /// The step is taken at the first node without one.
    Step(Step),
    /// The last command that was accepted is taken back.
    Undo,
}

/// Appends the command, or nothing.
pub(crate) fn push_command(commands: &mut Vec<Command>, command: Command) -> Result<(), OutOfMemory>
    ensures pushed { OnOk result (commands.new.items ≡ commands.old.items ++ command ∷ []) }
    ensures same { OnErr result (commands.new.items ≡ commands.old.items) }
{
    commands.push(command)?;
    Ok(())
}

/// Drops the last command.
pub(crate) fn drop_command(commands: &mut Vec<Command>)
    ensures { (front : List CommandOf) (last : CommandOf) →
        commands.old.items ≡ front ++ last ∷ [] →
        commands.new.items ≡ front }
{
    commands.pop();
}
