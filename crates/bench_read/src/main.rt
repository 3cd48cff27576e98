//! Reads a file's specification and counts its declarations, for the figures of `bench/run`.
//!
//! Uses spec_syntax.
//!
//! Proved: It is safe and ends.
//!
//! Tested: Its lines on a small file.
//!
//! Neither: Figures.
#![tactic(auto)]

use anyhow::{Result, bail};
use spec_syntax::read;
use std::{env, fs};

fn main(rt: HostRuntime) -> Result<()> {
    let words: Vec<String> = env::args(&rt)?.collect(rt.alloc())?;
    let [_, file] = words.as_slice() else {
        bail!("the word is FILE");
    };
    let bytes = fs::read(&rt, file.as_str())?;
    let raw = read(rt.alloc(), &bytes)?;
    let sorts = raw.sorts.len();
    let functions = raw.funs.len();
    let rules = raw.rules.len();
    let goals = raw.goals.len();
    println!(rt; "sorts {sorts} functions {functions} rules {rules} goals {goals}")?;
    Ok(())
}
