//! The search for a counterexample of a goal: the first one in the order of search.
//!
//! Uses ground_eval. An odometer walks a goal's substitutions in the order of spec_core's
//! definitions: the values of one substitution become those of the next. Neither the values of a
//! sort nor the substitutions are ever listed. A value is begun only if the fewest symbols of
//! what is missing fit into the limit. Members that begin with the same values are a block, and
//! if all of a block have one verdict they are passed over in one turn.
//!
//! Proved: `search`: the first of the first `tries` members of the list whose verdict is Fails,
//! or that there is none, with the numbers of what was looked at. `count`: the number of a sort's
//! values at a depth, or the cap if that is less. A look leaves a bank of at most 2^18 cells and
//! those that one verdict and one row may add, whatever the number of tries (`LeavesFew`, inside
//! the crate). `worked_examples`.
//!
//! Tested: Reports by hand, through the program.
//!
//! Neither: That substitutions are passed over, and the memory beside the bank's cells.
#![tactic(auto)]

mod answers;
mod counting;
mod fewest;
mod laws;
mod odometer;
mod parts;
mod searching;
mod sized_bank;
mod tables;
mod walking;

pub use answers::Search;
pub use counting::count;
pub use laws::worked_examples;
pub use searching::search;
