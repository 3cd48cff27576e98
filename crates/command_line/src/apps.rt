//! The simple command of each command word.

ghost use Rattle.std.specs.Prelude.{◌≡◌, IfOk, false};
ghost use Rattle.clap.specs.Words.{app_of, rule_of};
ghost use Rattle.command_line.specs.Entries.{app_taking, rule_of_argument};

use crate::arguments::{flag, number, numeral, word};
use crate::ranges::{
    DEPTHS, GOALS, NODES, PLAIN, STEPS, TRIES, USUAL_DEPTH, USUAL_NODES, USUAL_PLAIN, USUAL_STEPS,
    USUAL_TRIES,
};
use crate::table::Argument;
use clap::Arg;
use std::alloc::Global;
use term_core::OutOfMemory;

/// The simple command of this name that takes this, as `clap` has it.
pub fn app<'a>(
    alloc: Global,
    name: &'a str,
    takes: &[Argument],
) -> Result<clap::Command<'a>, OutOfMemory>
    ensures { IfOk result (λ app. app_of app ≡ app_taking name.entry.now takes.now) }
{
    let mut app = clap::Command::new(alloc, name);
    for argument in takes {
        app = app.arg(arg(alloc, *argument))?;
    }
    Ok(app)
}

/// What a command takes, as `clap` has it.
fn arg<'a>(alloc: Global, argument: Argument) -> Arg<'a>
    ensures rule { rule_of result ≡ rule_of_argument argument }
    ensures local { result.global ≡ false }
{
    match argument {
        Argument::File => word(alloc, "FILE"),
        Argument::Term => word(alloc, "TERM"),
        Argument::Report => word(alloc, "REPORT"),
        Argument::Commands => word(alloc, "COMMANDS"),
        Argument::Goals => numeral(alloc, "N", GOALS),
        Argument::Print => flag(alloc, "print"),
        Argument::Depth => number(alloc, "depth", DEPTHS, USUAL_DEPTH),
        Argument::Tries => number(alloc, "tries", TRIES, USUAL_TRIES),
        Argument::Steps => number(alloc, "steps", STEPS, USUAL_STEPS),
        Argument::Plain => number(alloc, "plain", PLAIN, USUAL_PLAIN),
        Argument::Nodes => number(alloc, "nodes", NODES, USUAL_NODES),
    }
}
