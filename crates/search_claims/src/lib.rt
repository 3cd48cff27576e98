//! The claims that searches for counterexamples give, one for each goal.
//!
//! Uses refuter for the search, clause_core for the types of reports, proof_script for their
//! text, and acceptance for when they are accepted. `specs/Claims.antt` says what the claim on a
//! goal is. What holds of one claim, whoever makes it, is in `proofs/`.
//!
//! Proved: `claim_on`: the claim that the search gives of a goal. What a search refutes is shown,
//! and may be in a report. `deepen`: the first counterexample that searches to the depths from 1 to
//! 8 find, or that none of them finds one. A report of such claims on all goals has a text
//! (`search_reports_stand`) and is accepted (`search_reports_are_accepted`).
//!
//! Tested: Reports by hand, through the program.
#![tactic(auto)]

mod claims;
mod deepening;
mod laws;

pub use claims::claim_on;
pub use deepening::{Deepened, deepen};
pub use laws::{search_reports_are_accepted, search_reports_stand};
