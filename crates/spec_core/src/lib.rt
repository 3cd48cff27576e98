//! Specifications, and the definitions of meaning on which every answer of the prover rests.
//!
//! Uses term_core and `indexmap`. `specs/` has a file for each notion. First come what a
//! signature declares, sorts and values, small values, well sorted specifications, evaluation
//! with its cost, and truth. Then come overlap, whole groups, the verdict within a budget, the
//! order of a search, the text of a term, and the rules of each function. A symbol's number is
//! its place in the table of a [`Signature`].
//!
//! Proved: `Signature::build` answers a repeated name, or the first sort without a small value,
//! each exactly where it is there. `small`: the small value of a sort, of which there is one
//! (`one_small_value`). `sort`, `symbol`, `sorts`, `symbols`, `info`, `name`, `is_constructor`,
//! `constructors_of`, `sort_of` and `print`, against the lists of declarations; each signature is
//! declared (`declared`). `append_decimal`: the decimal digits of a number. `goal_named`: the
//! goal of a name, with its number. `boolean`: a Boolean as a term. `order_by_number`: the path
//! ordering by number. `RuleTable`: the places of each function's rules. A term has at most one
//! value and one cost (`one_value`). `worked_examples` of the definitions.
#![tactic(auto)]

mod booleans;
mod building;
mod goals;
mod laws;
mod orders;
mod printing;
mod records;
mod rule_table;
mod small;
mod sorting;
mod symbols;
mod tables;

pub use booleans::boolean;
pub use building::BuildError;
pub use laws::{one_small_value, one_value, worked_examples};
pub use orders::order_by_number;
pub use printing::append_decimal;
pub use records::{Equation, Goal, Guard, OrderInfo, Rule, Spec, SymInfo, VarInfo, Verdict};
pub use rule_table::RuleTable;
pub use small::SMALL_VALUE_SYMBOLS;
pub use symbols::Signature;
