//! Equations and clauses that are known, and terms and clauses that they make needless.
//!
//! Uses matching, and the leading equations of fitting_lists. Who looks for lemmas keeps in a
//! [`Known`] what is proved. It passes over terms that a known equation or a rule without guards
//! rewrites to a smaller one, and over clauses that follow at once. A use of an equation is one of
//! an instance that falls in the order, from either side. Tries of patterns are counted, as a
//! measure of work that doesn't depend on the machine.
//!
//! Proved: `add` and `truncate`, exactly. If `is_reducible` says yes, a rule without guards or a
//! known equation that falls rewrites the term at its root (`specs/Uses.antt`). `normal` answers a
//! term that a chain of such uses gives (`specs/Chains.antt`). If `is_redundant` says yes, chains
//! make the sides of a conclusion one term, or an instance of a known clause says no less than the
//! clause (`specs/Redundant.antt`).
//!
//! Tested: Terms and clauses by hand (known_cases).
//!
//! Neither: That `is_reducible` and `is_redundant` say yes, that the term of `normal` is normal,
//! and the count of `work`.
#![tactic(auto)]

mod clauses;
mod covering;
mod heads;
mod known;
mod normalizing;
mod rewriting;
mod store;

pub use known::{Known, MOST_FUEL};
