//! Cases of terms, substitutions, matching, unification, the path ordering and clauses.
//!
//! Uses term_core, substitutions, matching, unifier, path_order, spec_core and clause_core. The
//! program doesn't show these calls. The cases were worked by hand or come from the literature.
//! It prints those that come out otherwise. Its `stdin` has the cases, a line each, with terms in
//! the notation of `signs.rt` and clauses in that of `clause_signs.rt`; `cases.rt` and
//! `clause_cases.rt` say what is asked of them. A case that takes too long to end is a failure
//! too.
//!
//! Proved: It is safe and ends.
//!
//! Tested: Cases of terms and clauses, by hand and of the literature.
#![tactic(auto)]

mod cases;
mod clause_cases;
mod clause_signs;
mod families;
mod levels;
mod signs;
mod sizes;

use anyhow::Result;
use std::io::{BufRead, BufReader};

fn main(rt: HostRuntime) -> Result<()> {
    let alloc = rt.alloc();
    let mut right: u64 = 0;
    for line in BufReader::new(alloc, rt.reader())?.lines(alloc) {
        let line = line?;
        let words: Vec<&str> = line.as_str().split_whitespace().collect(alloc)?;
        match words.as_slice() {
            [] | ["#", ..] => continue,
            words => {
                if cases::holds(alloc, words)? {
                    right = right.saturating_add(1);
                } else {
                    println!(rt; "otherwise: {line}")?;
                }
            }
        }
    }
    println!(rt; "{right} cases as they are written")?;
    Ok(())
}
