//! The table of commands, with their words, arguments and the usage line.

ghost use Rattle.std.specs.Prelude.{◌≡◌, ◌≢◌, MatchOption};
ghost use Rattle.command_line.specs.Entries.{IsEntry, NamesNone};
ghost use Rattle.std.specs.List.{AllByRecursion};
ghost use Rattle.command_line.specs.Usage.{usage_line};

/// A command word.
#[derive(Clone, Copy, Debug, PartialEq, Eq)]
pub enum CommandWord {
    Check,
    Eval,
    Prove,
    Refute,
    Replay,
    Load,
    Upgrade,
    Trim,
    Session,
}

/// What a command takes: a word, or an option.
#[derive(Clone, Copy, Debug, PartialEq, Eq)]
pub enum Argument {
    File,
    Term,
    Report,
    Commands,
    Goals,
    Print,
    Depth,
    Tries,
    Steps,
    Plain,
    Nodes,
}

use Argument::{Commands, Depth, File, Goals, Nodes, Plain, Print, Report, Steps, Term, Tries};

/// The commands and what each takes, in the order of the usage line.
pub const COMMANDS: [(&str, CommandWord, &[Argument]); 9] = [
    ("check", CommandWord::Check, &[File, Print]),
    ("eval", CommandWord::Eval, &[File, Term, Steps]),
    (
        "prove",
        CommandWord::Prove,
        &[File, Depth, Tries, Steps, Plain, Nodes],
    ),
    ("refute", CommandWord::Refute, &[File, Depth, Tries, Steps]),
    ("replay", CommandWord::Replay, &[File, Report]),
    ("load", CommandWord::Load, &[Goals]),
    ("upgrade", CommandWord::Upgrade, &[File]),
    ("trim", CommandWord::Trim, &[File, Report]),
    ("session", CommandWord::Session, &[File, Commands]),
];

/// The command of this name, and what it takes.
pub fn command_named(name: &str) -> Option<(CommandWord, &'static [Argument])>
    ensures { MatchOption result (NamesNone name.now)
        (λ entry. IsEntry name.now entry.0 entry.1.now) }
{
    entry_named(&COMMANDS, name)
}

/// The command of this name among such entries, and what it takes.
fn entry_named(
    entries: &[(&'static str, CommandWord, &'static [Argument])],
    name: &str,
) -> Option<(CommandWord, &'static [Argument])>
    requires { AllByRecursion (λ entry. IsEntry entry.0.now entry.1 entry.2.now) entries.now }
    ensures { MatchOption result
        (AllByRecursion (λ entry. name.now ≢ entry.0.now) entries.now)
        (λ entry. IsEntry name.now entry.0 entry.1.now) }
{
    for entry in entries {
        if entry.0 == name {
            return Some((entry.1, entry.2));
        }
    }
    None
}

/// The line for words that ask for nothing.
pub fn usage_line() -> &'static [u8]
    ensures { result.now ≡ usage_line }
{
    b"usage: spike check|eval|prove|refute|replay|load|upgrade|trim|session\n"
}
