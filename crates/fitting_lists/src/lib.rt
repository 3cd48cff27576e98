//! Lists of terms for the variables of a clause that a step refers to.
//!
//! Uses clauses of clause_core, and bindings of matching, which its own matcher keeps.
//! `specs/Fitting.antt` says which lists are tried for a clause, as questions for a list
//! (`specs/Questions.antt`, `specs/Answering.antt`). By a fitting list the leading equation of
//! the clause becomes an equation of the clause at hand. By a rewriting list a side of its only
//! conclusion becomes the term at a place.
//!
//! A [`Matcher`] is used again from try to try, so tries allocate nothing. [`fitting_terms`] is
//! one try with copies. [`may_become`] goes by symbols alone, and [`heads_agree`] by those near
//! the roots. A [`Spine`] keeps what is along a term's last arguments, by which most of what
//! can't fit is found without a walk (`specs/Spines.antt`). Each question has at most one answer
//! (`proofs/Determined.antt`), and sorted clauses meet the premise of these calls
//! (`proofs/Variables.antt`).
//!
//! Proved: `leading`: the first equation in which all variables of a clause are.
//! `has_all_variables`: whether a term has them all. `Matcher`: the only list of terms by which
//! an equation or a side becomes another one, as references, or that there is none, each exactly,
//! whatever it was used for before. `copies`: the same terms. `may_become`, of terms and of
//! spines (`spines_may_become`), and `heads_agree`: no only where no list makes the pattern the
//! term. `Spine::missing`, exactly, and 0 if some list does (`nothing_is_missing`).
//! `worked_examples`.
//!
//! Neither: That `may_become` and `heads_agree` say no.
#![tactic(auto)]

mod along;
mod becoming;
mod laws;
mod leading_equations;
mod marking;
mod matcher;
mod occurring;
mod spines;
mod term_lists;

pub use becoming::{heads_agree, may_become};
pub use laws::{nothing_is_missing, spines_may_become, worked_examples};
pub use leading_equations::{LeadingPlace, leading};
pub use matcher::Matcher;
pub use occurring::has_all_variables;
pub use spines::{Spine, SpineEnd};
pub use term_lists::{copies, fitting_terms};
