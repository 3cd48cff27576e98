//! Words read by `clap`, or refused, and words that ask for help.

ghost use Rattle.std.specs.Prelude.{◌≡◌, ◌↔◌, IfOk, IsTrue, MatchOption, map, string_bytes};
ghost use Rattle.clap.specs.Words.{app_of, found_of, rows_of};
ghost use Rattle.command_line.specs.FlatApps.{IsFlat};
ghost use Rattle.command_line.specs.Helps.{IsHelpWord, IsReading};
ghost use Rattle.command_line.specs.Matches.{Takes};
ghost use Rattle.command_line.specs.Readings.{AreMatches};

use clap::ArgMatches;
use clap::error::ErrorKind;
use term_core::OutOfMemory;

/// What `clap` makes of the words after a command word.
#[derive(Drop)]
pub enum Reading<'a> {
    Matches(ArgMatches<'a>),
    /// The words ask for help.
    Help,
    /// There is another fault in them.
    Fault,
}

/// What `clap` reads of the words, of which the first is the command word. None if it finds a
/// fault in them, help among them.
pub fn matches_of<'a>(
    app: clap::Command<'a>,
    words: &'a [String],
) -> Result<Option<ArgMatches<'a>>, OutOfMemory>
    requires { IsFlat (app_of app) }
    ensures { IfOk result (λ matches. MatchOption matches
        (Takes (app_of app.entry) (map string_bytes words.now) → ⊥)
        (λ m. AreMatches (app_of app.entry) (map string_bytes words.now)
        (rows_of (found_of m)))) }
{
    match app.try_get_matches_from(words) {
        Ok(matches) => Ok(Some(matches)),
        Err(error) => match error.kind() {
            ErrorKind::OutOfMemory => Err(OutOfMemory),
            _ => Ok(None),
        },
    }
}

/// What `clap` makes of the words, of which the first is the command word.
pub fn reading_of<'a>(
    app: clap::Command<'a>,
    words: &'a [String],
) -> Result<Reading<'a>, OutOfMemory>
    requires { IsFlat (app_of app) }
    ensures { IfOk result (IsReading (app_of app.entry) (map string_bytes words.now)) }
{
    match app.try_get_matches_from(words) {
        Ok(matches) => Ok(Reading::Matches(matches)),
        Err(error) => match error.kind() {
            ErrorKind::OutOfMemory => Err(OutOfMemory),
            ErrorKind::DisplayHelp => Ok(Reading::Help),
            _ => Ok(Reading::Fault),
        },
    }
}

/// Whether a first word asks for help.
pub fn asks_for_help(word: &str) -> bool
    ensures { IsTrue result ↔ IsHelpWord word.now }
{
    word == "--help" || word == "-h" || word == "help"
}
