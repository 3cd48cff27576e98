//! What the programs share of words, of files, of reports and of how a call ends.
//!
//! Uses io_core for files and sinks, accepted_spec for what a specification's file leads to, and
//! report_reader and replay_check for what a report's does. A call ends with a [`Status`], whose
//! code is that of the program, or it [`Stop`]s: then a part of what it may write was appended
//! (`specs/Stops.antt`).
//!
//! Proved: `read_text`: the bytes of a specification's file, or that it is too long. `refuse`: the
//! line of a refusal was appended. `reply_to_file`, for every store, sink and text of a yes: what
//! was appended and the status are the reply to the report of a file (`specs/Replies.antt`): the
//! text that the program chooses by `YesText` if the report is accepted, or else the line that says
//! why not, and where. A fault is answered only if one was counted.
#![tactic(auto)]

mod reading;
mod refusing;
mod replying;
mod statuses;
mod stops;
mod words;
mod yes_texts;

pub use reading::read_text;
pub use refusing::{ended, refuse};
pub use replying::{MAX_REPORT_BYTES, reply_to_file};
pub use statuses::{Ending, Status};
pub use stops::Stop;
pub use words::words_of;
pub use yes_texts::YesText;
