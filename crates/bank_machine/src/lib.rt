//! A machine that evaluates over a bank of shared values, with its pending work on a vector.
//!
//! Uses term_core, spec_core, value_bank and rule_code. By the latter a [`Machine`] holds a
//! specification compiled once, and the code of the terms that are evaluated. A state is a frame
//! and the frames that wait for its value (`specs/States.antt`), and each move keeps what the
//! state gives, less its cost. A [`KeptCalls`] beside the bank keeps what calls gave, from one
//! run to the next.
//!
//! Proved: `Machine::run`: evaluation over a bank. It answers a value at its cost within the
//! budget, and Spent exactly where no value has such a cost, if left sides don't overlap and
//! groups are whole. A kept value is that of its call and costs what the call costs, also after
//! want of memory (`AreRight`). How many cells a run adds at most, from the code and the budget
//! (`most_added`). The laws of its moves, both ways.
//!
//! Tested: Costs by hand, at and below the budget, through the program.
#![tactic(auto)]

mod answers;
mod calling;
mod evaluation;
mod held;
mod kept_calls;
mod laws;
mod machine;
mod recalling;
mod stack;
mod turning;
mod turns;

pub use answers::BankEval;
pub use kept_calls::KeptCalls;
pub use laws::{
    at_its_end, calls_cost, moves_are_right, moves_are_whole, moves_keep_sound,
    no_match_gives_nothing, none_goes_on_gives_nothing, run_gives, run_is_whole, sound_is_ready,
    start_is_sound,
};
pub use machine::Machine;
