//! Cases of known equations and clauses.
//!
//! Uses case_input, path_order, clause_core and known_equations. The program doesn't show these
//! calls. The cases were worked by hand. It prints those that come out otherwise. Its `stdin` has a
//! specification, up to the line `end`, and then the cases, a line each (`cases.rt`).
//!
//! Proved: It is safe and ends.
//!
//! Tested: What is reducible, normal forms, and what is redundant, by hand.
#![tactic(auto)]

mod cases;

use anyhow::Result;
use case_input::try_cases;
use cases::Knowing;

fn main(rt: HostRuntime) -> Result<()> {
    try_cases::<Knowing>(rt)
}
