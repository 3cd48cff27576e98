//! A bank of shared values: it has each ground term once, at a place.
//!
//! Uses term_core and bank_core. Contracts see a [`Bank`] as the list of its cells
//! (`specs/Cells.antt`), each a symbol and places of earlier cells. Two values are the same
//! exactly where their places are.
//!
//! Proved: `Bank::value`: the place of a ground term. `Bank::term`: the term at a place, or that
//! it has more than 10,000 symbols. Calls only add cells, at most one for each symbol, also if
//! memory runs out, so a place keeps its term. Different places have different terms
//! (`one_place`, `one_term`, `has_term`, `keeps_terms`).
//!
//! Tested: Values at and past 10,000 symbols, and as deep as that, through the program.
//!
//! Neither: How much memory a bank takes.
#![tactic(auto)]

mod answers;
mod bank;
mod laws;
mod reading;
mod values;

pub use answers::TermError;
pub use bank::{Bank, ValueId};
pub use laws::{has_term, keeps_terms, one_place, one_term, worked_examples};
pub use reading::TERM_SYMBOLS;
