//! The goals that the claims so far are on, and which of them are proved.
//!
//! Uses acceptance, which says what claims are on and what they prove. The crates above go along
//! the claims of a report. A later claim may use the goals that are proved
//! (`specs/Tracking.antt`).
//!
//! Proved: `ClaimedGoals`: which goals of a well sorted specification have a claim, and the
//! numbers of those that are proved, after any claims, one claim after the other.
//!
//! Tested: Reports with two claims on a goal, through the program.
#![tactic(auto)]

mod goals;

pub use goals::ClaimedGoals;
