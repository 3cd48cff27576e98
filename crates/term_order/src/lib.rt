//! Orders on terms, by which specifications are admitted and proofs descend, as a trait.
//!
//! Uses term_core. [`TermOrder`] is an order with its tests, its ranks and their laws
//! (`specs/Laws.antt`). The crates above use this trait, so they hold for each order that
//! implements it. One test compares terms; the other one compares the instances of terms by a
//! list, without building them. An [`Operand`] is what either test compares
//! (`specs/Operands.antt`).
//!
//! Proved: What `TermOrder` asks of an order, for each one that implements it. What `greater`
//! finds is above, and it finds it wherever both terms have at most 4,294,967,295 symbols and
//! variables. `greater_under` says the same of the instances of two terms by a list. `above` is
//! stable under substitutions, a term is above each of its proper subterms, and two terms in one
//! context compare as they do alone, both ways (`laws`). Each ground term has exactly one rank,
//! which falls to arguments and, in each context, from instances of a term to those of what it is
//! above (`ranks`). `Operand::resolved` means the same term.
#![tactic(auto)]

mod operands;
mod orders;

pub use operands::Operand;
pub use orders::TermOrder;
