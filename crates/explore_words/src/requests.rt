//! `request_of`: the one thing that words ask for.

ghost use Rattle.std.specs.Prelude.{◌≡◌, ◌≢◌, IfOk, MatchOption, map, string_bytes};
ghost use Rattle.clap.specs.Words.{found_of, rows_of};
ghost use Rattle.command_line.specs.Readings.{HasArguments};
ghost use Rattle.explore_words.specs.Requests.{IsAsked, task_of};
ghost use Rattle.explore_words.specs.Words.{Say, app_for, command_word};
ghost use Rattle.explore_words.specs.declared.requests.Form.{Form as FormOf};

use crate::arguments::app;
use crate::ranges::{SAMPLES, SIZES, WORK};
use clap::ArgMatches;
use command_line::{Reading, asks_for_help, is_given, number_of, reading_of, word_of};
use std::alloc::Global;
use term_core::{OutOfMemory, front};

/// What the words of a call ask for.
#[derive(Drop)]
pub enum Request<'a> {
    Explore(Command<'a>),
    /// The text that says how the program is called.
    Help,
}

/// What is written of an exploration.
#[derive(Clone, Copy, Debug, PartialEq, Eq)]
pub enum Form {
    /// The text of the file, with the lemmas in it.
    Text,
    /// The report on that text.
    Report,
}

/// An exploration of a file.
#[derive(Clone, Copy)]
pub struct Command<'a> {
    pub form: Form,
    pub file: &'a str,
    /// The name of the goal for which lemmas are looked for; none: for all goals.
    pub goal: Option<&'a str>,
    /// How many units of work each stage may take.
    pub work: u32,
    /// The size of the greatest terms that are compared.
    pub size: u32,
    /// On how many random values terms are compared.
    pub samples: u32,
    /// Whether no lemmas are looked for: each goal is tried alone.
    pub no_lemmas: bool,
    /// Whether nothing is said of the progress.
    pub quiet: bool,
}

/// What the words ask for. None if they ask for nothing: the first one is neither a command word
/// nor a question for help, or `clap` finds a fault in the others.
pub fn request_of<'a>(
    alloc: Global,
    words: &'a [String],
) -> Result<Option<Request<'a>>, OutOfMemory>
    ensures { IfOk result (IsAsked (map string_bytes words.now)) }
{
    let Some((word, _)) = front(words) else {
        return Ok(None);
    };
    let name = word.as_str();
    if asks_for_help(name) {
        return Ok(Some(Request::Help));
    }
    let Some(form) = form_named(name) else {
        return Ok(None);
    };
    let app = app(alloc, name)?;
    match reading_of(app, words)? {
        Reading::Matches(matches) => Ok(Some(Request::Explore(command_of(form, &matches)))),
        Reading::Help => Ok(Some(Request::Help)),
        Reading::Fault => Ok(None),
    }
}

/// The form whose command word this is.
fn form_named(word: &str) -> Option<Form>
    ensures { MatchOption result ((form : FormOf) → word.now ≢ command_word form)
        (λ form. word.now ≡ command_word form) }
{
    if word == "text" {
        Some(Form::Text)
    } else if word == "report" {
        Some(Form::Report)
    } else {
        None
    }
}

/// The exploration that the matches of a command ask for.
fn command_of<'a>(form: Form, matches: &ArgMatches<'a>) -> Command<'a>
    requires { HasArguments (app_for form) (rows_of (found_of matches.now)) }
    ensures form { result.form ≡ form }
    ensures says { Say (rows_of (found_of matches.now)) (task_of result) }
{
    Command {
        form,
        file: word_of(matches, "FILE"),
        goal: matches.get_str("goal"),
        work: number_of(matches, "work", WORK),
        size: number_of(matches, "size", SIZES),
        samples: number_of(matches, "samples", SAMPLES),
        no_lemmas: is_given(matches, "no-lemmas"),
        quiet: is_given(matches, "quiet"),
    }
}
