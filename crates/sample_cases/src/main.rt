//! What samples are, and which goals they refute.
//!
//! Uses case_input, clause_core and sample_values. Its `stdin` has a specification, up to a line
//! `end`. It prints twelve random values of each sort, and then which goals are refuted, with the
//! random numbers begun again before each sort and each goal.
//!
//! Proved: It is safe and ends.
//!
//! Tested: Against the same generator and the same tests, written in C++.
#![tactic(auto)]

mod printing;

use anyhow::Result;
use case_input::{specification, text_of};
use clause_core::of_goal;
use sample_values::Samples;
use spec_core::Spec;
use std::alloc::Global;
use std::io::{BufRead, BufReader};
use term_core::SortId;

fn main(rt: HostRuntime) -> Result<()> {
    let alloc = rt.alloc();
    let text = input_text(rt)?;
    let spec = specification(alloc, &text)?;
    let mut samples = Samples::new(alloc, &spec)?;
    print_values(rt, &mut samples)?;
    print_goals(rt, &spec, &mut samples)
}

/// Prints random values of each sort.
fn print_values(rt: HostRuntime, samples: &mut Samples) -> Result<()> {
    let alloc = rt.alloc();
    for sort in 0..samples.spec().sig.sorts() {
        let line = printing::random_line(alloc, samples, SortId(sort))?;
        println!(rt; "{sort}:{line}")?;
    }
    Ok(())
}

/// Prints of each goal whether it is refuted.
fn print_goals(rt: HostRuntime, spec: &Spec, samples: &mut Samples) -> Result<()> {
    let alloc = rt.alloc();
    for goal in &spec.goals {
        let clause = of_goal(alloc, goal)?;
        samples.restart();
        let refuted = samples.refutes(alloc, &clause, 20, 300)?;
        let name = printing::text(alloc, goal.name.as_bytes())?;
        println!(rt; "{name} {}", if refuted { "refuted" } else { "stands" })?;
    }
    Ok(())
}

/// The text that is read, up to a line `end`.
fn input_text(rt: HostRuntime) -> Result<Vec<u8>> {
    let alloc = rt.alloc();
    let mut lines = BufReader::new(alloc, rt.reader())?.lines(alloc);
    text_of(alloc, &mut lines)
}
