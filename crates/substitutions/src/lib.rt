//! Substitutions of terms for variables: instances, compositions, and sorts that are kept.
//!
//! Uses the terms of term_core, and spec_core's sorts, by which entries fit variables. Contracts
//! see a [`Subst`] as the list of its entries by variable number (`specs/Substitution.antt`).
//! `proofs/Instances.antt` has further lemmas on instances for the crates above.
//!
//! Proved: `Subst::apply`: the instance of each term. `compose`: the composition, which does what
//! its parts do one after the other. `fits`: whether each variable has an entry of its sort.
//! `get` and `set`. Entries that fit keep sorts (`instances_keep_sorts`). `worked_examples`.
#![tactic(auto)]

mod laws;
mod subst;

pub use laws::{instances_keep_sorts, worked_examples};
pub use subst::Subst;
