//! Most general unifiers, and terms with their variables apart.
//!
//! Uses substitutions. The definitions are those of the field: a unifier, one of which every
//! other is an instance (`specs/Unification.antt`), and a term with the same number added to each
//! variable (`specs/Shifting.antt`).
//!
//! Proved: `unify`: a most general unifier, with variables of the two terms alone and of their
//! sorts, and None exactly where there is no unifier. `shift`: the shifted term, or that a number
//! is too large, in both directions. A shifted term has no variable in common with one whose
//! variables have numbers below the shift (`shifted_are_apart`). `worked_examples`.
//!
//! Tested: Tables of problems of the literature. A None of the exponential family comes at once.
//!
//! Neither: That unification is quadratic up to its answer.
#![tactic(auto)]

mod laws;
mod shifting;
mod unification;

pub use laws::{shifted_are_apart, worked_examples};
pub use shifting::{ShiftError, shift};
pub use unification::unify;
