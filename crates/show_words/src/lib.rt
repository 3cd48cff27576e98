//! What the words of a call of `spike-show` ask for: what is shown of a file, help, or nothing.
//!
//! Uses command_line, which has what `clap` says of a command's words, and page_core for the
//! formats. Each format of a page has a command word, and open goals have one; after it `clap`
//! reads the words (`specs/Words.antt`). No text of `clap` leaves this crate: help is a text of its
//! own.
//!
//! Proved: `request_of`: a page, the open goals, help or nothing, by what `clap` finds in the
//! words. Words ask for one of them at most (`one_request`).
#![tactic(auto)]

mod arguments;
mod laws;
mod requests;
mod texts;

pub use laws::one_request;
pub use requests::{Command, Request, View, request_of};
pub use texts::{help_text, usage_line};
