//! The text that `load` generates, and its meaning.
//!
//! Uses spec_printing, whose printed form the text is, and the definitions of what is accepted,
//! from spec_grammar, sort_check, clause_core and spec_order. `specs/` says what is declared
//! (`LoadRaw.antt`), which specification it stands for (`LoadSpec.antt`), and what it is for a
//! text to be accepted as one (`Accepted.antt`).
//!
//! Proved: `load_text`: the bytes of the generated text. Each such text is accepted, as the
//! specification that is defined for it (`load_texts_are_accepted`). `worked_examples`.
//!
//! Tested: The counts of its goals, through the program.
#![tactic(auto)]

mod laws;
mod text;

pub use laws::{load_texts_are_accepted, worked_examples};
pub use text::load_text;
