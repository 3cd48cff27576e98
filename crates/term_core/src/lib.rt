//! Terms as trees, with the lists, names and numbers that every other crate uses.
//!
//! Uses std alone. Contracts see a [`Term`] as a tree (`specs/Tree.antt`), a [`Seq`] as the list
//! of its items and a [`Name`] as the list of its bytes. [`OutOfMemory`] is the one answer that
//! no contract ties to a cause.
//!
//! Copies of a term share its arguments, so they take no memory. What limits and the numbering of
//! variables ask of a term is kept with its arguments (`measures.rt`).
//!
//! Proved: The calls on terms, against the tree: `size` and `depth` up to a cap, `bound`, `same`
//! and `copy`; `at` and `replace` (the subterm at a path, and the term with it exchanged, in both
//! directions); `vars` (the first occurrences) and `occurs`; `numbered_after` (how many variables
//! are numbered after a term, or that its variables aren't numbered by first occurrence). Lists,
//! names and references to terms, against the list of their items. `place_of`: the first place of
//! a name. A path has at most one subterm (`one_place`), and the term that was put at a path is
//! found there (`replaced_is_there`). `worked_examples`.
#![tactic(auto)]

mod ids;
mod laws;
mod lists;
mod measures;
mod memory;
mod names;
mod occurring;
mod places;
mod references;
mod tree;
mod variables;

pub use ids::{SortId, SymId, VarId};
pub use laws::{one_place, replaced_is_there, worked_examples};
pub use lists::{Seq, front};
pub use memory::OutOfMemory;
pub use names::{Name, place_of};
pub use occurring::occurs;
pub use places::ReplaceError;
pub use references::TermRefs;
pub use tree::{Term, TermNode, Terms, copy_all};
