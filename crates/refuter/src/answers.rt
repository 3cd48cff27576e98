//! What a search answers.

use term_core::Terms;

/// What a search answers.
#[derive(Drop)]
pub enum Search {
    /// The first member with the verdict Fails: its place in the list, from 0, and its values.
    Found { index: u32, values: Terms },
    /// None of the members that were looked at fails: how many these are, how many of them have
    /// the verdict Spent, and whether the list has more.
    NotFound { tried: u32, skipped: u32, cut: bool },
}
