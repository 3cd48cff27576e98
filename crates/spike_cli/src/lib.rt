//! The commands of the program `spike`: what each call reads, writes and ends with, by `run`.
//!
//! `prove FILE` looks for counterexamples of the goals, as far as `--depth`, `--tries` and
//! `--steps` say. Then it looks for plain proofs of at most the length `--plain`, and then for
//! routine proofs of at most `--nodes` nodes, with the goals proved before as lemmas. `refute
//! FILE` looks for counterexamples alone. `replay FILE REPORT` says whether a report is accepted,
//! or the line at which it first isn't. `trim FILE REPORT` writes an accepted report made
//! shorter, and refuses what `replay` refuses by the same lines. `session FILE COMMANDS` carries
//! out the commands of a proof by hand, and writes the answer to each and the report of the goals
//! that are proved. `check FILE` says that the file is accepted, or with `--print` writes its
//! printed form, and `upgrade FILE` writes that form in format 2. `eval FILE TERM` evaluates a
//! term without variables within `--steps` rule uses. A file that isn't accepted, or a term that
//! isn't one, gets a line of refusal, which says what its first fault is. `load N` generates this
//! many goals, proves them and replays the report, and writes how many are proved, refuted and
//! left open.
//!
//! Uses all the crates below. [`run`] is the whole program over a store of files and a sink, and
//! its contract is what the program promises.
//!
//! Proved: `run`: what the program promises of every call. What a file, a report, commands or a
//! number of goals lead to is one thing: `one_ending`, `one_replay`, `one_trim`, `one_session`,
//! `one_load`, `one_right_report`. `search_alone_proves_nothing`, `finished_reports_are_accepted`,
//! `finished_runs_are_replayed`, `upgrades_keep_meaning`, `upgraded_runs_answer_the_same`.
//! `usual_report`: the report of `prove` with the usual numbers, in memory. `claims_of`: the claims
//! of `prove`, in memory. `Status::code`.
//!
//! Tested: Reports and refusals byte by byte, faults in mid-stream, words.
#![tactic(auto)]

mod checking;
mod claiming;
mod claims;
mod evaluating;
mod laws;
mod loading;
mod replying;
mod reporting;
mod running;
mod sessions;

pub use claiming::claims_of;
pub use file_replies::{MAX_REPORT_BYTES, Status};
pub use laws::{
    finished_reports_are_accepted, finished_runs_are_replayed, one_ending, one_load, one_replay,
    one_right_report, one_session, one_trim, search_alone_proves_nothing,
    upgraded_runs_answer_the_same, upgrades_keep_meaning,
};
pub use reporting::usual_report;
pub use running::run;
pub use sessions::MAX_COMMAND_BYTES;
