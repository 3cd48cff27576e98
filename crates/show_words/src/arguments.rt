//! The words of a command, for `clap`.

ghost use Rattle.std.specs.Prelude.{◌≡◌, IfOk};
ghost use Rattle.clap.specs.Words.{app_of};
ghost use Rattle.show_words.specs.Words.{app_named, open_app as open_app_of};
ghost use Rattle.show_words.specs.Words.{page_app as page_app_of};

use crate::requests::CommandWord;
use command_line::{
    DEPTHS, NODES, PLAIN, STEPS, TRIES, USUAL_DEPTH, USUAL_NODES, USUAL_PLAIN, USUAL_STEPS,
    USUAL_TRIES, number, option, word,
};
use std::alloc::Global;
use term_core::OutOfMemory;

/// The simple command of this name with the arguments of a command word, as `clap` has it.
pub fn app<'a>(
    alloc: Global,
    command: CommandWord,
    name: &'a str,
) -> Result<clap::Command<'a>, OutOfMemory>
    ensures { IfOk result (λ app. app_of app ≡ app_named command name.entry.now) }
{
    match command {
        CommandWord::Page(_) => page_app(alloc, name),
        CommandWord::Open => open_app(alloc, name),
    }
}

fn page_app<'a>(alloc: Global, name: &'a str) -> Result<clap::Command<'a>, OutOfMemory>
    ensures { IfOk result (λ app. app_of app ≡ page_app_of name.entry.now) }
{
    let app = clap::Command::new(alloc, name)
        .arg(word(alloc, "FILE"))?
        .arg(word(alloc, "REPORT"))?
        .arg(option(alloc, "goal"))?;
    Ok(app)
}

fn open_app<'a>(alloc: Global, name: &'a str) -> Result<clap::Command<'a>, OutOfMemory>
    ensures { IfOk result (λ app. app_of app ≡ open_app_of name.entry.now) }
{
    let app = clap::Command::new(alloc, name)
        .arg(word(alloc, "FILE"))?
        .arg(option(alloc, "goal"))?
        .arg(number(alloc, "depth", DEPTHS, USUAL_DEPTH))?
        .arg(number(alloc, "tries", TRIES, USUAL_TRIES))?
        .arg(number(alloc, "steps", STEPS, USUAL_STEPS))?
        .arg(number(alloc, "plain", PLAIN, USUAL_PLAIN))?
        .arg(number(alloc, "nodes", NODES, USUAL_NODES))?;
    Ok(app)
}
