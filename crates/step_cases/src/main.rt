//! Cases of proof steps and of normal forms.
//!
//! Uses case_input, spec_syntax, path_order, clause_core, normalization and inference_rules. The
//! program doesn't show these calls. The cases were worked by hand. It prints those that come out
//! otherwise. Its `stdin` has a specification, up to the line `end`, and then the cases, a line
//! each: what is asked, `->` and the answer (`cases.rt`). Terms are written as in specifications,
//! without blanks, with `x0`, `x1` and so on for the variables of a clause by their numbers.
//!
//! Proved: It is safe and ends.
//!
//! Tested: Steps and normal forms, by hand.
#![tactic(auto)]

mod answers;
mod cases;
mod nodes;
mod normal_cases;
mod steps;
mod terms;

use anyhow::Result;
use case_input::try_cases;
use cases::Stepping;

fn main(rt: HostRuntime) -> Result<()> {
    try_cases::<Stepping>(rt)
}
