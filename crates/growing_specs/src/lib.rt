//! An admitted specification whose goals are added and taken off, one by one.
//!
//! Uses spec_core, clause_core and spec_admit. A search for lemmas tries candidate after candidate
//! over one specification: each is a goal while it is tried, and stays one if it is proved. Rules,
//! symbols and the order stay, so that nothing has to be admitted again.
//!
//! Proved: `add_goal`, `keep_first`: the same specification with these goals, admitted by the same
//! order. A goal is refused exactly where it isn't well sorted, its name is taken, or there are
//! 2^32 - 1 goals already. `copy_goal`: an equal goal. `goal_is_sorted`: whether a goal is well
//! sorted over a signature.
#![tactic(auto)]

mod copying;
mod growing;
mod sorting;

pub use copying::copy_goal;
pub use growing::{add_goal, keep_first};
pub use sorting::goal_is_sorted;
