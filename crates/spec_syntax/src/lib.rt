//! The reader of specifications, exact with the place of each fault.
//!
//! Uses the tokens of spec_text and the definitions of spec_grammar: what a text derives, the
//! place and the kind of its first fault, and the stack of symbols beside which each reading
//! function is proved.
//!
//! Proved: `read` and `read_term`, in both directions: what is read is derived by the grammar
//! within the limits, and what is derived is read. A fault that is reported is the text's first,
//! with its place, and a fault that is there is reported. No term has more words than the text
//! has bytes. A text has one fault at most (`one_fault`).
//!
//! Tested: Limits and faults by hand, through the program.
#![tactic(auto)]

mod clauses;
mod declarations;
mod fault;
mod goals;
mod laws;
mod orders;
mod reading;
mod sorts;
mod stop;
mod terms;
mod words;

pub use fault::SyntaxFault;
pub use laws::one_fault;
pub use reading::{read, read_term};
pub use spec_grammar::{
    LimitKind, RawBind, RawEq, RawEqual, RawFun, RawGoal, RawGuard, RawName, RawNames, RawOrder,
    RawRule, RawSort, RawSpec, RawStatus, RawTerm, RawTerms, RawWeight,
};
