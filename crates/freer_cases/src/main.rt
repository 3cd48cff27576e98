//! Cases of freer proofs.
//!
//! Uses accepted_spec and freer_search. Its `stdin` has specifications, each up to a line `end`.
//! A line there that begins with `case` is no part of the specification: it has a goal, the goals
//! that are its lemmas, and whether a proof is found (`cases.rt`). It prints the cases that come
//! out otherwise.
//!
//! Proved: It is safe and ends.
//!
//! Tested: Goals of the literature that no routine proof proves, with and without lemmas, and goals
//! that have no proof: they are false, or a proof has more nodes than are asked for. Each block
//! that is found is a proof by the contract of `freer`, so only that one is found says anything.
#![tactic(auto)]

mod cases;
mod groups;
mod tallies;

use anyhow::Result;
use groups::Group;
use std::alloc::Global;
use std::io::{BufRead, BufReader, Lines};
use tallies::Tally;

fn main(rt: HostRuntime) -> Result<()> {
    let tally = tally_of_input(rt)?;
    for line in tally.otherwise.as_slice() {
        println!(rt; "otherwise: {line}")?;
    }
    println!(rt; "{} cases as they are written", tally.right)?;
    Ok(())
}

/// How the cases come out that are read.
fn tally_of_input(rt: HostRuntime) -> Result<Tally> {
    let alloc = rt.alloc();
    let lines = BufReader::new(alloc, rt.reader())?.lines(alloc);
    tally_of(alloc, lines)
}

/// How the cases of these lines come out.
fn tally_of<R: BufRead + Drop>(alloc: Global, lines: Lines<R>) -> Result<Tally> {
    let mut tally = Tally::new(alloc);
    let mut group = Group::new(alloc);
    for line in lines {
        let line = line?;
        if line.as_str() == "end" {
            tally.count(alloc, &group)?;
            group.clear();
        } else {
            group.add(line)?;
        }
    }
    Ok(tally)
}
