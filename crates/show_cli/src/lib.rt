//! What a call of `spike-show` reads, writes and ends with, by `run`.
//!
//! `page FILE REPORT` writes a page of an accepted report in HTML, and `text FILE REPORT` as plain
//! text. A report that isn't accepted gets the line that `replay` of `spike` writes for it. `open
//! FILE` makes the claims of `prove` and writes a section for each goal that they leave open. Each
//! shows all goals or the one that `--goal NAME` names, and writes `refused goal` if there is none
//! of this name. A file that isn't accepted gets the line of refusal. Uses show_words for the
//! words, file_replies for replies to reports, report_pages for pages, spike_cli for claims and
//! open_pages for the text on open goals.
//!
//! Proved: `run`, for every store and sink: what was appended, by the status; which count of faults
//! rose; and which files were asked for (`specs/Runs.antt`). Done: the page of an accepted report,
//! the text on the open goals, or help.
#![tactic(auto)]

mod pages;
mod running;
mod viewing;

pub use file_replies::Status;
pub use running::run;
