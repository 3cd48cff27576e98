//! What `covers` and `tree` answer.

use term_core::Terms;

/// Whether rows of patterns cover the values of their sorts.
#[derive(Drop)]
pub enum Coverage {
    /// Each list of values matches some row.
    Covered,
    /// Values that match no row.
    Missing(Terms),
}

/// Whether the guard lists of a group of rules form a complete decision tree.
#[derive(Clone, Copy, Debug, PartialEq, Eq)]
pub enum Tree {
    Whole,
    Gap,
}
