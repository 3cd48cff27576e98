//! What `linear` and `overlap` answer.

use term_core::{Seq, Term, VarId};

/// Whether some rule has a variable twice on its left side.
#[derive(Clone, Copy, Debug, PartialEq, Eq)]
pub enum Linear {
    Fine,
    /// The first such rule, where the rules count from 1, and the least such variable of it.
    Repeated { rule: u32, var: VarId },
}

/// Whether some values match two different left sides.
#[derive(Drop)]
pub enum Overlap {
    Fine,
    /// The first such pair of rules, where the rules count from 1, and values that both match.
    Both {
        first: u32,
        second: u32,
        values: Seq<Term>,
    },
}
