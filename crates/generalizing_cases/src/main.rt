//! Cases of the candidates that a clause and its stuck clauses give.
//!
//! Uses case_input, clause_core and generalized_clauses. No program shows which candidates there
//! are. The cases were worked by hand. It prints those that come out otherwise. Its `stdin` has a
//! specification, up to the line `end`, and then the cases, a line each: what is asked, `->` and
//! the answer (`cases.rt`). The clauses are those of the specification's goals.
//!
//! Proved: It is safe and ends.
//!
//! Tested: Candidates, by hand.
#![tactic(auto)]

mod cases;
mod clauses;

use anyhow::Result;
use case_input::try_cases;
use cases::Generalizing;

fn main(rt: HostRuntime) -> Result<()> {
    try_cases::<Generalizing>(rt)
}
