//! Entries that are there once, found by their hashes: what banks of shared terms have in common.
//!
//! Uses term_core. [`Entries`] are heads with arguments, in their order. [`Links`] lead from a
//! hash to the numbers of the entries that have it, the last one first. A [`Table`] is both: it
//! adds an entry if it isn't there. The crates above say by a [`Part`] what a head and an
//! argument are.
//!
//! Proved: `Table`, for every type of heads and of arguments with a test of equality. `find`: the
//! place of an entry, or that it has none. `put` and `add`: the entry is there once, at the end
//! or where it was, and the others stay, also if memory runs out. `at`: the entry at a place.
//! `Entries`: the same entries without their hashes. `Links`: the number of the last entry with a
//! hash (`last`), and of the last one with it before an entry (`before`), or that there is none,
//! exactly, whatever entries were added (`add`).
#![tactic(auto)]

mod entries;
mod links;
mod parts;
mod table;

pub use entries::Entries;
pub use links::Links;
pub use parts::Part;
pub use table::{Table, hash_entry};
