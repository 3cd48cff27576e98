//! The words of a command, for `clap`.

ghost use Rattle.std.specs.Prelude.{◌≡◌, IfOk};
ghost use Rattle.clap.specs.Words.{app_of};
ghost use Rattle.explore_words.specs.Words.{app_named};

use crate::ranges::{SAMPLES, SIZES, USUAL_SAMPLES, USUAL_SIZE, USUAL_WORK, WORK};
use command_line::{flag, number, option, word};
use std::alloc::Global;
use term_core::OutOfMemory;

/// The simple command of this name, as `clap` has it.
pub fn app<'a>(alloc: Global, name: &'a str) -> Result<clap::Command<'a>, OutOfMemory>
    ensures { IfOk result (λ app. app_of app ≡ app_named name.entry.now) }
{
    let app = clap::Command::new(alloc, name)
        .arg(word(alloc, "FILE"))?
        .arg(option(alloc, "goal"))?
        .arg(number(alloc, "work", WORK, USUAL_WORK))?
        .arg(number(alloc, "size", SIZES, USUAL_SIZE))?
        .arg(number(alloc, "samples", SAMPLES, USUAL_SAMPLES))?
        .arg(flag(alloc, "no-lemmas"))?
        .arg(flag(alloc, "quiet"))?;
    Ok(app)
}
