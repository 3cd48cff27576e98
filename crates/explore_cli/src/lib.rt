//! What a call of `spike-explore` reads, writes and ends with, by `run`.
//!
//! `text FILE` writes the text of the file with lemmas as further goals, and `report FILE` the
//! report on that text. The finder, lemma_search, isn't believed: what it proposes is accepted and
//! replayed again, and compared with the file and with the report of `prove`. If it is no
//! exploration of them, the file's own text and that report are written. A file that isn't
//! accepted gets the line of refusal. Uses explore_words for the words, file_replies for files and
//! endings, spike_cli for the report of `prove`, lemma_search for proposals and explorations for
//! the check.
//!
//! Proved: `run`, for every store and all sinks: what was appended, by the status; which count of
//! faults rose; and which file was asked for (`specs/Runs.antt`). Done, Refuted or Open: the text
//! or the report of an exploration of the file's specification over the report of `prove`, and the
//! status is what that report claims (`specs/Written.antt`). `replay` answers such a report by yes
//! on such a text (`reports_get_a_yes`).
//!
//! Tested: That `text` and `report` write one exploration, and that the text has the lines of the
//! file (`tests/explore`).
//!
//! Neither: That lemmas are found, and what is said of the progress.
#![tactic(auto)]

mod bases;
mod exploring;
mod laws;
mod progress;
mod proposals;
mod running;
mod statuses;

pub use file_replies::Status;
pub use laws::reports_get_a_yes;
pub use running::run;
