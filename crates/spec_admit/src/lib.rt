//! Which specifications are admitted, and the first fault of one that isn't.
//!
//! Uses clause_core for what is asked of an admitted specification, term_order for the order's
//! test, and overlap_check and coverage_check for their tests and the values that they name; its
//! worked examples take the order of sample_specs. `specs/FirstFault.antt` says which fault is
//! the first.
//!
//! Proved: `admit`, for every order: Ok exactly where the specification is admitted, which it is
//! then with its order, and each sorted term without variables has one value. Else the first
//! fault, with the specification unchanged. A value of `Admitted` is well sorted and admitted by
//! its order. An admitted specification has no fault (`no_fault_where_admitted`), and each one
//! has at most one first fault (`one_fault`). A fault of guards names the first rule of its group
//! (`guards_name_the_first_of_a_group`). Each call with values has one left side that matches,
//! and a term one value and one cost at most (`each_call_has_one_left_side`). `worked_examples`.
//!
//! Tested: Faults of each kind byte by byte, through the program.
#![tactic(auto)]

mod admitted;
mod admitting;
mod coverage;
mod faults;
mod guards;
mod laws;
mod linearity;
mod ordering;

pub use admitted::Admitted;
pub use admitting::admit;
pub use faults::{AdmitError, AdmitFault};
pub use laws::{
    each_call_has_one_left_side, guards_name_the_first_of_a_group, no_fault_where_admitted,
    one_fault, worked_examples,
};
