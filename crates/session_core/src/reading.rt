//! A text of commands, or its first faulty line.

ghost use Rattle.std.specs.Prelude.{◌≡◌, Err, IfOk, MatchResult};
ghost use Rattle.spec_core.specs.Declarations.{IsDeclared};
ghost use Rattle.proof_script.specs.declared.errors.StepLineError.TheVariants.{NotAStep};
ghost use Rattle.session_core.specs.CommandText.{AreCommands, Spells, SpellsSome, TellsFault};

use crate::commands::{Command, push_command};
use crate::errors::CommandError;
use proof_script::{StepLineError, after, is_report_name, read_step, split_line};
use spec_core::Signature;
use std::alloc::Global;
use term_core::Name;

/// The most lines that a text of commands may have.
pub const MOST_COMMANDS: u32 = 100_000;

/// The commands of a text, one for each line, or its first line that isn't a command, isn't ended
/// or is one too many.
pub fn read_commands(
    alloc: Global,
    sig: &Signature,
    bytes: &[u8],
) -> Result<Vec<Command>, CommandError>
    requires { IsDeclared sig.now }
    ensures { MatchResult result (λ commands. AreCommands sig.now bytes.now commands.items)
        (λ error. TellsFault sig.now bytes.now error) }
{
    let mut commands = Vec::new(alloc);
    let mut rest = bytes;
    for number in 0..MOST_COMMANDS {
        if rest.is_empty() {
            return Ok(commands);
        }
        let Some((line, others)) = split_line(rest) else {
            return Err(CommandError::Line { line: number + 1 });
        };
        let command = match read_command(alloc, sig, line) {
            Ok(command) => command,
            Err(StepLineError::NotAStep) => return Err(CommandError::Line { line: number + 1 }),
            Err(StepLineError::OutOfMemory) => return Err(CommandError::OutOfMemory),
        };
        push_command(&mut commands, command)?;
        rest = others;
    }
    if rest.is_empty() {
        return Ok(commands);
    }
    Err(CommandError::Line {
        line: MOST_COMMANDS + 1,
    })
}

/// The command that the line spells, which comes without its newline.
fn read_command(alloc: Global, sig: &Signature, line: &[u8]) -> Result<Command, StepLineError>
    requires { IsDeclared sig.now }
    ensures ok { IfOk result (Spells sig.now line.now) }
    ensures none { result ≡ Err NotAStep → SpellsSome sig.now line.now → ⊥ }
{
    if line == b"undo".as_slice() {
        return Ok(Command::Undo);
    }
    let Some(name) = after(line, b"goal ") else {
        return Ok(Command::Step(read_step(alloc, sig, line)?));
    };
    if !is_report_name(name) {
        return Err(StepLineError::NotAStep);
    }
    Ok(Command::Goal(Name::of(alloc, name)?))
}
