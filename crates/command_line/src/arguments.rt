//! Arguments, and what is read of their matches.

ghost use Rattle.std.specs.Prelude.{◌≡◌, ◌↔◌, ◌<◌, ◌^◌, IsTrue, false};
ghost use Rattle.clap.specs.Words.{found_of, rows_of, rule_of};
ghost use Rattle.command_line.specs.Rules.{flag_rule, number_rule, numeral_rule};
ghost use Rattle.command_line.specs.Rules.{option_rule, word_rule};
ghost use Rattle.command_line.specs.Matches.{HasNumber, HasWord, IsGiven};
ghost use Rattle.command_line.specs.Readings.{HasSomeNumber, HasSomeWord};

use crate::ranges::NumberRange;
use clap::builder::ValueParser;
use clap::{Arg, ArgAction, ArgMatches};
use std::alloc::Global;

/// A positional word.
pub fn word<'a>(alloc: Global, name: &'a str) -> Arg<'a>
    ensures rule { rule_of result ≡ word_rule name.entry.now }
    ensures local { result.global ≡ false }
{
    Arg::new(alloc, name).required(true).action(ArgAction::Set)
}

/// A positional number.
pub fn numeral<'a>(alloc: Global, name: &'a str, range: NumberRange) -> Arg<'a>
    ensures rule { rule_of result ≡ numeral_rule name.entry.now range }
    ensures local { result.global ≡ false }
{
    let NumberRange { least, most } = range;
    Arg::new(alloc, name)
        .required(true)
        .action(ArgAction::Set)
        .value_parser(ValueParser::Unsigned(least, most))
}

/// An option with a text.
pub fn option<'a>(alloc: Global, name: &'a str) -> Arg<'a>
    ensures rule { rule_of result ≡ option_rule name.entry.now }
    ensures local { result.global ≡ false }
{
    Arg::new(alloc, name).long(name).action(ArgAction::Set)
}

/// An option with a number, and the text that stands for it if no word gives one.
pub fn number<'a>(alloc: Global, name: &'a str, range: NumberRange, usual: &'a str) -> Arg<'a>
    ensures rule { rule_of result ≡ number_rule name.entry.now range usual.entry.now }
    ensures local { result.global ≡ false }
{
    Arg::new(alloc, name)
        .long(name)
        .action(ArgAction::Set)
        .value_parser(ValueParser::Unsigned(range.least, range.most))
        .default_value(usual)
}

/// An option without a value.
pub fn flag<'a>(alloc: Global, name: &'a str) -> Arg<'a>
    ensures rule { rule_of result ≡ flag_rule name.entry.now }
    ensures local { result.global ≡ false }
{
    Arg::new(alloc, name).long(name).action(ArgAction::SetTrue)
}

/// The positional word of this name.
pub fn word_of<'a>(matches: &ArgMatches<'a>, name: &str) -> &'a str
    requires { HasSomeWord (rows_of (found_of matches.now)) name.now }
    ensures { HasWord (rows_of (found_of matches.now)) name.now result.now }
{
    matches.get_str(name).unwrap_or("")
}

/// The number of this name, which lies in this range.
pub fn number_of(matches: &ArgMatches<'_>, name: &str, range: NumberRange) -> u32
    requires small { range.most < 2 ^ 32 }
    requires there { HasSomeNumber (rows_of (found_of matches.now)) name.now range }
    ensures { HasNumber (rows_of (found_of matches.now)) name.now range result }
{
    matches.get_one::<u32>(name).unwrap_or(0)
}

/// Whether the option without a value is given.
pub fn is_given(matches: &ArgMatches<'_>, name: &str) -> bool
    ensures { IsTrue result ↔ IsGiven (rows_of (found_of matches.now)) name.now }
{
    match matches.get_str(name) {
        Some(text) => text == "true",
        None => false,
    }
}
