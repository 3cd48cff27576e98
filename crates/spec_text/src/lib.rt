//! Names and tokens of a specification's text, and the text's faults.
//!
//! Uses `unicode_ident` alone. `specs/` says what a name is, what may be between two tokens, how
//! each token is spelled, and which tokens or which first fault some bytes have. These are
//! relations, apart from the code.
//!
//! Proved: `scan` finds the tokens of the bytes if they are text made of tokens and gaps, and
//! else the place of the first fault. `name_at` finds the longest name. A text has at most one
//! list of tokens (`one_list`). They lie in the text, and each is spelled by its slice (`spans`).
//! What is written piece by piece is scanned to its pieces (`written_scans`). `worked_examples`.
#![tactic(auto)]

mod characters;
mod laws;
mod names;
mod scanner;
mod tokens;

pub use laws::{one_list, spans, worked_examples, written_scans};
pub use names::name_at;
pub use scanner::scan;
pub use tokens::{ScanError, Token, TokenKind};
