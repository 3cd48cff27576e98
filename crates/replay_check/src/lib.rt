//! Replay: whether a report is accepted, and where it is first refused if not.
//!
//! Uses acceptance, which says what an accepted report is and which refusal is the first.
//! block_steps takes the steps of a block, claimed_goals knows the proved goals, and ground_eval
//! gives the verdict of a refuted goal. The specification is one that spec_admit admits. Nothing
//! is searched, and nothing is trusted: a report may come from anywhere.
//!
//! Claims are tested in their order (`claims.rt`), a block step by step (`blocks.rt`), and the
//! values of a refuted goal by its verdict (`values.rt`). A block's clauses are kept while a
//! later step needs them (`last_uses.rt`), and then let go (`letting_go.rt`), so a long block of
//! large clauses takes the room of a few.
//!
//! Proved: `replay`, for every order: Yes exactly where the report is accepted, and then each
//! proved claim is on a true goal and each refuted one on a goal that fails under its values. No
//! with the line and the reason of the first refusal, exactly where there is one.
//!
//! Tested: Each reason at each place where it can come, and two faults in one report, by hand,
//! through the program.
#![tactic(auto)]

mod answers;
mod blocks;
mod claims;
mod last_uses;
mod letting_go;
mod lines;
mod replaying;
mod values;

pub use answers::Answer;
pub use replaying::replay;
