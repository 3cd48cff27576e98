//! What the words of a call of `spike-explore` ask for: an exploration of a file, help, or nothing.
//!
//! Uses command_line, which has what `clap` says of a command's words. Each form of the answer has
//! a command word, after which `clap` reads the words (`specs/Words.antt`). No text of `clap`
//! leaves this crate: help is a text of its own.
//!
//! Proved: `request_of`: an exploration, help or nothing, by what `clap` finds in the words. Words
//! ask for one of them at most (`one_request`).
#![tactic(auto)]

mod arguments;
mod laws;
mod ranges;
mod requests;
mod texts;

pub use laws::one_request;
pub use requests::{Command, Form, Request, request_of};
pub use texts::{help_text, usage_line};
