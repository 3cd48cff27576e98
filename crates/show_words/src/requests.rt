//! `request_of`: the one thing that words ask for.

ghost use Rattle.std.specs.Prelude.{◌≡◌, ◌≢◌, IfOk, MatchOption, map, string_bytes};
ghost use Rattle.clap.specs.Words.{found_of, rows_of};
ghost use Rattle.command_line.specs.Readings.{HasArguments};
ghost use Rattle.show_words.specs.Requests.{IsAsked, task_of, view_of as view_value};
ghost use Rattle.show_words.specs.Words.{Say, SayView, app_for, word_of as word_of_view, word_text};
ghost use Rattle.show_words.specs.declared.requests.CommandWord.{CommandWord as CommandWordOf};

use crate::arguments::app;
use clap::ArgMatches;
use command_line::{ProofBounds, Reading, asks_for_help, proof_bounds_of, reading_of, word_of};
use page_core::Format;
use std::alloc::Global;
use term_core::{OutOfMemory, front};

/// What the words of a call ask for.
#[derive(Drop)]
pub enum Request<'a> {
    Show(Command<'a>),
    /// The text that says how the program is called.
    Help,
}

/// What is shown of the goals of a file.
#[derive(Clone, Copy)]
pub struct Command<'a> {
    pub file: &'a str,
    /// The name of the goal that is shown; none: all goals are.
    pub goal: Option<&'a str>,
    pub view: View<'a>,
}

/// What is shown.
#[derive(Clone, Copy)]
pub enum View<'a> {
    /// A page of this report on the file.
    Page { form: Format, report: &'a str },
    /// Where the proofs of the goals stop that are left open within these bounds.
    OpenGoals(ProofBounds),
}

/// A command word.
#[derive(Clone, Copy)]
pub enum CommandWord {
    Page(Format),
    Open,
}

/// What the words ask for. None if they ask for nothing: the first one is neither a command word
/// nor a question for help, or `clap` finds a fault in the others.
pub fn request_of<'a>(
    alloc: Global,
    words: &'a [String],
) -> Result<Option<Request<'a>>, OutOfMemory>
    ensures { IfOk result (IsAsked (map string_bytes words.now)) }
{
    let Some((first, _)) = front(words) else {
        return Ok(None);
    };
    let name = first.as_str();
    if asks_for_help(name) {
        return Ok(Some(Request::Help));
    }
    let Some(word) = command_named(name) else {
        return Ok(None);
    };
    let app = app(alloc, word, name)?;
    match reading_of(app, words)? {
        Reading::Matches(matches) => Ok(Some(Request::Show(command_of(word, &matches)))),
        Reading::Help => Ok(Some(Request::Help)),
        Reading::Fault => Ok(None),
    }
}

/// The command word that this is.
fn command_named(name: &str) -> Option<CommandWord>
    ensures { MatchOption result ((word : CommandWordOf) → name.now ≢ word_text word)
        (λ word. name.now ≡ word_text word) }
{
    if name == "page" {
        Some(CommandWord::Page(Format::Html))
    } else if name == "text" {
        Some(CommandWord::Page(Format::Text))
    } else if name == "open" {
        Some(CommandWord::Open)
    } else {
        None
    }
}

/// What the matches of a command ask for.
fn command_of<'a>(word: CommandWord, matches: &ArgMatches<'a>) -> Command<'a>
    requires { HasArguments (app_for word) (rows_of (found_of matches.now)) }
    ensures word { word_of_view (task_of result).view ≡ word }
    ensures says { Say (rows_of (found_of matches.now)) (task_of result) }
{
    Command {
        file: word_of(matches, "FILE"),
        goal: matches.get_str("goal"),
        view: view_of(word, matches),
    }
}

/// What the matches of a command want to be shown.
fn view_of<'a>(word: CommandWord, matches: &ArgMatches<'a>) -> View<'a>
    requires { HasArguments (app_for word) (rows_of (found_of matches.now)) }
    ensures word { word_of_view (view_value result) ≡ word }
    ensures says { SayView (rows_of (found_of matches.now)) (view_value result) }
{
    match word {
        CommandWord::Page(form) => View::Page {
            form,
            report: word_of(matches, "REPORT"),
        },
        CommandWord::Open => View::OpenGoals(proof_bounds_of(matches)),
    }
}
