//! The program: `main` calls `run` with the words, the system's files and standard output.
//!
//! Uses io_core, [`file_replies::words_of`] and [`spike_cli::run`], whose contract is what the
//! program promises. It ends with the code of the status that `run` answers.
//!
//! Proved: `main` is safe and ends.
//!
//! Tested: The stored run: the proof of `plus_zero`. Requests for memory (one in k of many),
//! reads and writes that fail, and the largest texts with 1 GiB of memory (`tests/faults`).
//!
//! Neither: `main` before it calls `run`: its endings with 8 if no memory is found for the words,
//! and with 9 if a word isn't UTF-8. That it ends with the code of what `run` answers.
#![tactic(auto)]

use file_replies::words_of;
use io_core::{StdFiles, StdSink};
use spike_cli::run;
use std::io;
use std::process::ExitCode;

fn main(rt: HostRuntime) -> ExitCode {
    let words = match words_of(&rt) {
        Ok(words) => words,
        Err(code) => return ExitCode::from(code),
    };
    let mut files = StdFiles::new(rt);
    let mut out = StdSink::new(io::writer(&rt));
    let status = run(rt.alloc(), &words, &mut files, &mut out);
    ExitCode::from(status.code())
}
