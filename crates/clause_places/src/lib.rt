//! The places of a clause in the order of trying, and the variable that its calls ask for.
//!
//! Uses the clauses and places of clause_core. `specs/Spots.antt` lists the places, each with its
//! term. `specs/Asked.antt` says which variable is asked for: one whose value a rule looks at
//! before it fits.
//!
//! Proved: `Spots`: the places of a clause in the order in which steps are tried at them, each
//! with its term. `asked`: the first variable that the first place asks for, or that none does.
//! Both are exact. Each place of the list is there (`places_are_there`), and what is asked for is
//! a variable of the clause (`asked_is_variable`). `worked_examples`.
//!
//! Neither: Which call `call_around` answers.
#![tactic(auto)]

mod calls;
mod demand;
mod laws;
mod patterns;
mod spots;
mod terms;
mod walk;

pub use calls::{Call, call_around};
pub use demand::asked;
pub use laws::{asked_is_variable, places_are_there, worked_examples};
pub use spots::Spots;
