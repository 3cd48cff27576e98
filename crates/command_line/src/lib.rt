//! What the words of a call ask for, read by `clap` after the command word.
//!
//! Uses term_core and `clap`, which has one simple command for each command word
//! (`specs/Apps.antt`). One table has the commands, with what each takes (`table.rt`), and the
//! usage line has their words in its order. No text of `clap` leaves this crate. A program with
//! other commands makes its arguments by [`word`], [`option`], [`number`] and [`flag`], and reads
//! them by [`reading_of`], [`word_of`], [`number_of`] and [`is_given`].
//!
//! Proved: `request_of` answers a command, or a number of goals, exactly where `clap` finds no
//! fault in the words after a known command word. The answer has their words and numbers, usual
//! ones included (`specs/Tasks.antt`). Otherwise it answers none, also if help is asked for. Words
//! ask for one task at most (`one_request`). `worked_examples`. `reading_of`: the matches that
//! `clap` finds in words, that they ask for help, or that there is another fault in them.
//!
//! Tested: Lists of words, in all orders of options (command_line_cases).
#![tactic(auto)]

mod apps;
mod arguments;
mod bounds;
mod commands;
mod laws;
mod matching;
mod ranges;
mod table;

pub use arguments::{flag, is_given, number, number_of, option, word, word_of};
pub use bounds::{ProofBounds, SearchBounds};
pub use commands::{Command, Request, proof_bounds_of, request_of};
pub use laws::{one_request, worked_examples};
pub use matching::{Reading, asks_for_help, reading_of};
pub use ranges::{
    DEPTHS, GOALS, NODES, NumberRange, PLAIN, STEPS, TRIES, USUAL_DEPTH, USUAL_NODES, USUAL_PLAIN,
    USUAL_STEPS, USUAL_TRIES,
};
pub use table::usage_line;
