//! Whether a term is an instance of a pattern, and by which substitution.
//!
//! Uses substitutions. A match binds each variable of the pattern to a part of the term, by
//! reference (`specs/Matching.antt`). For many tries, or several patterns one after the other,
//! keep [`Bindings`] and call [`bind`] (`specs/Extending.antt`).
//!
//! Proved: `matches`: the substitution of the pattern's variables, and None exactly where there
//! is none. `fits`: whether there is one, without a copy. `bind`: the same beside the terms of
//! variables that were met before, as `Bindings` keep them by reference. `worked_examples`.
//!
//! Tested: Pairs of terms by hand (term_cases).
#![tactic(auto)]

mod binding;
mod bindings;
mod laws;
mod matching;

pub use binding::bind;
pub use bindings::Bindings;
pub use laws::worked_examples;
pub use matching::{fits, matches};
