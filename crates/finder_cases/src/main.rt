//! Cases of finding lemmas: scopes, classes of terms and candidates.
//!
//! Uses case_input, path_order, sample_values, known_equations and term_classes. The cases were
//! worked by hand. The program prints those that come out otherwise. Its `stdin` has a
//! specification, up to the line `end`, and then the cases, a line each (`cases.rt`).
//!
//! Proved: It is safe and ends.
//!
//! Tested: Scopes, representatives and candidates of naturals, lists and a maximum, by hand.
#![tactic(auto)]

mod cases;
mod finder;
mod printing;

use anyhow::Result;
use case_input::try_cases;
use cases::Finding;

fn main(rt: HostRuntime) -> Result<()> {
    try_cases::<Finding>(rt)
}
