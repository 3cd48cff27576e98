//! Normal forms, and clauses that are compared, for the figures of `bench/run`.
//!
//! Uses case_input, path_order, clause_core and normalization. It normalizes the left side of a
//! file's first goal, or compares two clauses without a file. The words are `normalize FILE BUDGET
//! TIMES` or `compare one|all EQUATIONS TIMES`.
//!
//! Proved: It is safe and ends.
//!
//! Tested: Its lines on a small file.
//!
//! Neither: Figures.
#![tactic(auto)]

mod comparing;

ghost use Rattle.spec_core.specs.WellSorted.{IsWellSorted};

use anyhow::{Context, Result, bail};
use case_input::specification;
use comparing::compared;
use normalization::{Normal, Rewriter};
use spec_core::Spec;
use std::alloc::Global;
use std::{env, fs};

fn main(rt: HostRuntime) -> Result<()> {
    let words: Vec<String> = env::args(&rt)?.collect(rt.alloc())?;
    let done = count_of(rt, &words)?;
    println!(rt; "done {done}")?;
    Ok(())
}

/// What the mode of these words counts.
fn count_of(rt: HostRuntime, words: &[String]) -> Result<u64> {
    match words {
        [_, mode, file, budget, times] if mode.as_str() == "normalize" => {
            normalized_file(rt, file.as_str(), budget, times)
        }
        [_, mode, differ, equations, times] if mode.as_str() == "compare" => {
            let all_differ = differ.as_str() == "all";
            compared(rt.alloc(), number(equations)?, all_differ, number(times)?)
        }
        _ => bail!("the words are no mode of this program"),
    }
}

/// The count of the file of this name.
fn normalized_file(rt: HostRuntime, file: &str, budget: &String, times: &String) -> Result<u64> {
    let alloc = rt.alloc();
    let spec = specification(alloc, &fs::read(&rt, file)?)?;
    normalized(alloc, &spec, number(budget)?, number(times)?)
}

fn number(word: &String) -> Result<u32> {
    word.as_str().parse::<u32>().context("reading a number")
}

/// How many uses the left side of the first goal's first conclusion takes, which is normalized so
/// many times.
fn normalized(alloc: Global, spec: &Spec, budget: u32, times: u32) -> Result<u64>
    requires fine { IsWellSorted spec.now }
{
    let Some(goal) = spec.goals.as_slice().first() else {
        bail!("the file has no goal");
    };
    let Some(conclusion) = goal.conclusions.as_slice().first() else {
        bail!("the goal has no conclusion");
    };
    let rewriter = Rewriter::new(alloc, spec)?;
    let mut count: u64 = 0;
    for _time in 0..times {
        match rewriter.normalize(alloc, &conclusion.left, budget)? {
            Normal::Done { uses, .. } => count = uses.len() as u64,
            Normal::Spent => bail!("the budget is spent"),
        }
    }
    Ok(count)
}
