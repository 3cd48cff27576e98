//! Classes of terms by their values at samples, and candidates for lemmas.
//!
//! Uses sample_values, which evaluates, and known_equations, which says what can be rewritten
//! already. [`scope_of`] chooses symbols for a clause. [`Classes`] take in the terms over them by
//! size. The first term of a class represents it, and arguments are representatives alone. A
//! further term of a class is a candidate: it may equal the representative. A [`Candidate`] may
//! also have a premise, under which classes are put together that differ without it, or two, which
//! together imply a third test.
//!
//! Proved: It is safe and ends. The symbols of a scope are declared, and each is there once. A
//! candidate has one conclusion, its variables are numbered by first occurrence, and it says how
//! many there are.
//!
//! Tested: The classes and the candidates of small specifications (finder_cases).
//!
//! Neither: That a candidate holds at the samples, that each is made once, and that no term is left
//! out that could give one.
#![tactic(auto)]

mod candidates;
mod class_table;
mod classes;
mod conditional;
mod drawing;
mod evaluating;
mod growing;
mod implications;
mod premises;
mod regrouping;
mod rows;
mod sampled;
mod scopes;
mod seen_clauses;
mod size_splits;
mod sorts_in_use;

pub use candidates::Candidate;
pub use classes::{ClassBounds, Classes};
pub use scopes::scope_of;
