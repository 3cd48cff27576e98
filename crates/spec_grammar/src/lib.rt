//! Raw specifications and their grammar.
//!
//! Uses the tokens of spec_text. A raw specification is a text's format and declarations in their
//! order, with each name as written and its place. `specs/` has the grammar with its limits as
//! relations on whole token lists, what a fault of a text is, and a stack of grammar symbols that
//! a reader goes along. The definitions have the limits' numbers themselves. The constants and
//! functions beside [`LimitKind`] are for code, which is proved against the definitions.
//!
//! Proved: A text derives at most one raw specification, and none if it has a fault. It has at
//! most one fault, with one place and kind (`one_reading`). What a text derives keeps the limits
//! (`within_limits`). Lists of raw terms, against the list of their items. `worked_examples`:
//! small texts and faults.
#![tactic(auto)]

mod keys;
mod laws;
mod limits;
mod raw;
mod terms;

pub use keys::Key;
pub use laws::{one_reading, within_limits, worked_examples};
pub use limits::{
    LimitKind, MAX_ARGUMENTS, MAX_CONCLUSIONS, MAX_DEPTH, MAX_FILE_BYTES, MAX_GOALS, MAX_GUARDS,
    MAX_NAME_BYTES, MAX_PREMISES, MAX_SORT_CONSTRUCTORS, MAX_SORTS, MAX_VARIABLES, file_limit,
    max_constructors, max_functions, max_rules,
};
pub use raw::{
    RawBind, RawEq, RawEqual, RawFun, RawGoal, RawGuard, RawName, RawNames, RawOrder, RawRule,
    RawSort, RawSpec, RawStatus, RawWeight,
};
pub use terms::{RawTerm, RawTerms};
