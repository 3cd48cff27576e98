//! What is known of substitutions that begin alike, and how many were looked at.

use ground_eval::Verdict;
use term_core::Terms;

/// What is to be done with the members that begin with some values.
#[derive(Drop)]
pub(crate) enum Asked {
    /// All have this verdict, and there are this many.
    Block { verdict: Verdict, size: u32 },
    /// This many more values are to be fixed.
    Split(usize),
}

/// How a look at some members in a row ended.
#[derive(Drop)]
pub(crate) enum Look {
    /// All of them were looked at, and none fails.
    Whole,
    /// The tries were used up before.
    Cut,
    /// These are the values of one that fails.
    Found(Terms),
}

/// How many members were looked at, and how many of them have the verdict Spent.
#[derive(Drop)]
pub(crate) struct Tally {
    pub(crate) tried: u32,
    pub(crate) skipped: u32,
}
