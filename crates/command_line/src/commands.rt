//! The command that words ask for.

ghost use Rattle.std.specs.Prelude.{◌≡◌, IfOk, map, string_bytes};
ghost use Rattle.clap.specs.Words.{found_of, rows_of};
ghost use Rattle.command_line.specs.Tasks.{AreBounds, AreProofBounds};
ghost use Rattle.command_line.specs.Readings.{HasArguments, HasSomeBounds, HasSomeProofBounds};
ghost use Rattle.command_line.specs.Commands.{IsAsked, file_of};
ghost use Rattle.command_line.specs.Entries.{IsRequestOf, app_of_word};

use crate::apps::app;
use crate::arguments::{is_given, number_of, word_of};
use crate::bounds::{ProofBounds, SearchBounds};
use crate::matching::matches_of;
use crate::ranges::{DEPTHS, GOALS, NODES, PLAIN, STEPS, TRIES};
use crate::table::{CommandWord, command_named};
use clap::ArgMatches;
use std::alloc::Global;
use term_core::{OutOfMemory, front};

/// What the words of a call ask for.
#[derive(Drop)]
pub enum Request<'a> {
    /// A command on a file.
    OnFile(Command<'a>),
    /// Generates this many goals, proves them and replays the report.
    Load(u32),
}

/// A command on a file.
#[derive(Drop)]
pub enum Command<'a> {
    /// Looks for counterexamples of a file's goals.
    Refute {
        file: &'a str,
        bounds: SearchBounds,
    },
    /// Looks for counterexamples of a file's goals, and for proofs if it finds none.
    Prove {
        file: &'a str,
        bounds: ProofBounds,
    },
    /// Evaluates a term within this many rule uses.
    Eval {
        file: &'a str,
        term: &'a str,
        steps: u32,
    },
    /// Accepts or refuses a file, and prints it if that is asked for.
    Check {
        file: &'a str,
        print: bool,
    },
    /// Tests a report on a file.
    Replay {
        file: &'a str,
        report: &'a str,
    },
    /// Writes an accepted file in format 2.
    Upgrade {
        file: &'a str,
    },
    /// Makes an accepted report on a file shorter.
    Trim {
        file: &'a str,
        report: &'a str,
    },
    /// Carries out commands of a proof by hand on a file.
    Session {
        file: &'a str,
        commands: &'a str,
    },
}

impl<'a> Command<'a> {
    /// The file that is read.
    pub fn file(&self) -> &str
        ensures { result.now ≡ file_of self.now }
    {
        match self {
            Command::Refute { file, .. } => file,
            Command::Prove { file, .. } => file,
            Command::Eval { file, .. } => file,
            Command::Check { file, .. } => file,
            Command::Replay { file, .. } => file,
            Command::Upgrade { file } => file,
            Command::Trim { file, .. } => file,
            Command::Session { file, .. } => file,
        }
    }
}

/// What the words ask for, of which the first is the command word. None if they ask for nothing:
/// `clap` finds a fault in the others, help among them, or the first is no command word.
pub fn request_of<'a>(
    alloc: Global,
    words: &'a [String],
) -> Result<Option<Request<'a>>, OutOfMemory>
    ensures { IfOk result (IsAsked (map string_bytes words.now)) }
{
    let Some((word, _)) = front(words) else {
        return Ok(None);
    };
    let name = word.as_str();
    let Some((command, takes)) = command_named(name) else {
        return Ok(None);
    };
    let app = app(alloc, name, takes)?;
    let Some(matches) = matches_of(app, words)? else {
        return Ok(None);
    };
    Ok(Some(asked(command, &matches)))
}

/// What the matches of a command ask for.
fn asked<'a>(command: CommandWord, matches: &ArgMatches<'a>) -> Request<'a>
    requires { HasArguments (app_of_word command) (rows_of (found_of matches.now)) }
    ensures { IsRequestOf command (rows_of (found_of matches.now)) result }
{
    match command {
        CommandWord::Check => Request::OnFile(Command::Check {
            file: word_of(matches, "FILE"),
            print: is_given(matches, "print"),
        }),
        CommandWord::Eval => Request::OnFile(Command::Eval {
            file: word_of(matches, "FILE"),
            term: word_of(matches, "TERM"),
            steps: number_of(matches, "steps", STEPS),
        }),
        CommandWord::Prove => Request::OnFile(Command::Prove {
            file: word_of(matches, "FILE"),
            bounds: proof_bounds_of(matches),
        }),
        CommandWord::Refute => Request::OnFile(Command::Refute {
            file: word_of(matches, "FILE"),
            bounds: search_bounds_of(matches),
        }),
        CommandWord::Replay => Request::OnFile(Command::Replay {
            file: word_of(matches, "FILE"),
            report: word_of(matches, "REPORT"),
        }),
        CommandWord::Load => Request::Load(number_of(matches, "N", GOALS)),
        CommandWord::Upgrade => Request::OnFile(Command::Upgrade {
            file: word_of(matches, "FILE"),
        }),
        CommandWord::Trim => Request::OnFile(Command::Trim {
            file: word_of(matches, "FILE"),
            report: word_of(matches, "REPORT"),
        }),
        CommandWord::Session => Request::OnFile(Command::Session {
            file: word_of(matches, "FILE"),
            commands: word_of(matches, "COMMANDS"),
        }),
    }
}

/// How far the search for counterexamples and then for proofs goes.
pub fn proof_bounds_of(matches: &ArgMatches<'_>) -> ProofBounds
    requires { HasSomeProofBounds (rows_of (found_of matches.now)) }
    ensures { AreProofBounds (rows_of (found_of matches.now)) result }
{
    ProofBounds {
        search: search_bounds_of(matches),
        plain: number_of(matches, "plain", PLAIN),
        nodes: number_of(matches, "nodes", NODES),
    }
}

/// How far the search for counterexamples goes.
fn search_bounds_of(matches: &ArgMatches<'_>) -> SearchBounds
    requires { HasSomeBounds (rows_of (found_of matches.now)) }
    ensures { AreBounds (rows_of (found_of matches.now)) result }
{
    SearchBounds {
        depth: number_of(matches, "depth", DEPTHS),
        tries: number_of(matches, "tries", TRIES),
        steps: number_of(matches, "steps", STEPS),
    }
}
