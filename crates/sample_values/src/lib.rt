//! Values to try clauses on: random and small values of each sort, and what functions give for
//! them.
//!
//! Uses bank_machine, whose proved evaluator gives each value, and bank_core, which finds calls
//! that were made before. [`Samples`] keeps all values in one bank. A [`Value`] is a number, so
//! a list of values is compared without looking at them.
//!
//! Proved: Each function is safe and ends. What has a number is a value of a sort: `term` gives
//! one. Code of a symbol runs on values of its argument sorts alone, and what it gives is a value
//! of its sort. `number`: a number below its bound.
//!
//! Tested: Random values and refuted clauses, against the same tests in another language
//! (sample_cases).
//!
//! Neither: What `apply`, `value`, `random` and `refutes` answer. They guide a search, and what is
//! found with them is proved afterwards, so no proof rests on them. Nor is it proved which values
//! are tried and how often, that equal values have one number, and which calls are given up. How
//! much memory the bank takes: a call is given up once it has 2^23 cells.
#![tactic(auto)]

mod call_table;
mod depths;
mod evaluator;
mod known_values;
mod pool;
mod random_numbers;
mod random_values;
mod refuting;
mod samples;
mod sides;
mod small_values;
mod terms;
mod values;

pub use samples::Samples;
pub use values::Value;
