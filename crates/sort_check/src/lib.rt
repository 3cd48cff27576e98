//! From raw specifications to sorted ones, or to their first fault.
//!
//! Uses spec_core and spec_grammar. `specs/FirstFault.antt` says which tests of a raw
//! specification are made in which order. Apart from this, `specs/` says what its numbering is,
//! with the sorts that a goal's variables get (`Inference.antt`) and the order that lines give:
//! levels and statuses, or weights (`Orders.antt`). A raw specification stands for its numbering
//! if no test finds a fault (`StandsFor.antt`).
//!
//! Proved: `elaborate` answers the specification that the raw one stands for wherever there is
//! one, and it is well sorted if the raw one keeps the limits of the grammar. Else `elaborate`
//! answers the first fault with its place and kind, in both directions. `elaborate_term` does so
//! for a term without variables. The laws: `one_specification`, `one_first_fault`,
//! `faulty_stands_for_none`, `sizes_are_kept`, `well_sorted`. No term of a rule has more symbols
//! than a raw term has words (`numbering_keeps_sizes`). `worked_examples`.
//!
//! Tested: Faults and inferred sorts by hand, through the program.
#![tactic(auto)]

mod clauses;
mod declarations;
mod elaborating;
mod entries;
mod faults;
mod goals;
mod laws;
mod limits;
mod marks;
mod orders;
mod rounds;
mod rules;
mod variables;
mod walk;
mod weights;

pub use elaborating::{elaborate, elaborate_term};
pub use faults::{SortFault, SortKind};
pub use laws::{
    faulty_stands_for_none, numbering_keeps_sizes, one_first_fault, one_specification,
    sizes_are_kept, well_sorted, worked_examples,
};
