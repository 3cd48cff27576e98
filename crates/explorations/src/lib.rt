//! What may be written for a specification after a search for lemmas, and the check of it.
//!
//! A finder of lemmas is free in how it searches: what it hands over are the bytes of a text and of
//! a report, and [`checked`] takes them only if they are an exploration. Uses added_goals, which
//! says when a specification is another one with further goals; accepted_spec, by which the text is
//! read and admitted again; and report_reader and replay_check, by which the report is.
//! `specs/Explorations.antt` says what an exploration is.
//!
//! Proved: `checked`: the exploration that the two texts are; `None` is answered only if they are
//! none. What an exploration proves is true of the specification as it was without the further
//! goals (`explorations_are_true`). Two texts are one exploration at most (`one_exploration`), and
//! the text of the specification with an accepted report on it is one, with nothing added
//! (`nothing_added`). `worked_examples`.
#![tactic(auto)]

mod checking;
mod laws;
mod proving;
mod reports;
mod texts;

pub use checking::{Exploration, checked};
pub use laws::{explorations_are_true, nothing_added, one_exploration, worked_examples};
pub use proving::is_proved;
