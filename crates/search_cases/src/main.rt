//! Searches compared with plain programs that do what the definitions of the searches say.
//!
//! Uses case_input, spec_syntax, sort_check, value_bank, ground_eval and refuter. It prints where
//! they differ. Its `stdin` has specifications, each up to a line `end`. For each goal the search
//! for a counterexample is compared with a walk of the list of substitutions (`searches.rt`), at
//! each depth up to 5, with up to 40 tries. A line that begins with `case` is no part of a
//! specification: it has an evaluation or a verdict that was worked by hand (`cases.rt`).
//!
//! Proved: It is safe and ends.
//!
//! Tested: 24,108 searches on 49 goals against a plain walk of the list, and 12 evaluations and
//! verdicts over a bank.
#![tactic(auto)]

mod cases;
mod plain_values;
mod rows;
mod searches;
mod values;
mod walks;

use anyhow::Result;
use case_input::specification;
use std::alloc::Global;
use std::io::{BufRead, BufReader, Lines};

fn main(rt: HostRuntime) -> Result<()> {
    let alloc = rt.alloc();
    let lines = BufReader::new(alloc, rt.reader())?.lines(alloc);
    let mut otherwise: Vec<String> = Vec::new(alloc);
    let counts = compared(alloc, lines, &mut otherwise)?;
    for line in &otherwise {
        println!(rt; "otherwise: {line}")?;
    }
    println!(rt; "{} goals and {} cases", counts.goals, counts.cases)?;
    Ok(())
}

/// How many goals and cases there are.
#[derive(Clone, Copy)]
struct Counts {
    goals: usize,
    cases: usize,
}

/// Goes through the specifications of the lines and their cases. What comes out otherwise is added.
fn compared<R: BufRead + Drop>(
    alloc: Global,
    lines: Lines<R>,
    otherwise: &mut Vec<String>,
) -> Result<Counts> {
    let mut text: Vec<u8> = Vec::new(alloc);
    let mut cases: Vec<String> = Vec::new(alloc);
    let mut counts = Counts { goals: 0, cases: 0 };
    for line in lines {
        let line = line?;
        if line.as_str() == "end" {
            let goals = compared_goals(alloc, &text, &cases, otherwise)?;
            counts.goals = counts.goals.saturating_add(goals);
            counts.cases = counts.cases.saturating_add(cases.len());
            text.clear();
            cases.clear();
        } else if line.as_str().starts_with("case ") {
            cases.push(line)?;
        } else {
            text.extend_from_slice(line.as_str().as_bytes())?;
            text.push(b'\n')?;
        }
    }
    Ok(counts)
}

/// How many goals the specification of the text has. Where a search differs, and where a case comes
/// out otherwise, a line is added.
fn compared_goals(
    alloc: Global,
    text: &[u8],
    cases: &[String],
    otherwise: &mut Vec<String>,
) -> Result<usize> {
    let spec = specification(alloc, text)?;
    searches::compare(alloc, &spec, otherwise)?;
    for case in cases {
        if !cases::holds(alloc, &spec, case.as_str())? {
            otherwise.push(case.clone()?)?;
        }
    }
    Ok(spec.goals.len())
}
