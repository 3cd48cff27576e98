//! The program `spike-explore`: `main` calls `run` with the words, the system's files, standard
//! output and, for the progress, standard error.
//!
//! Uses io_core, [`file_replies::words_of`] and [`explore_cli::run`], whose contract is what the
//! program promises. It ends with the code of the status that `run` answers.
//!
//! Proved: `main` is safe and ends.
//!
//! Tested: The stored run: help.
//!
//! Neither: That it ends with the code of what `run` answers.
#![tactic(auto)]

use explore_cli::run;
use file_replies::words_of;
use io_core::{StdFiles, StdSink};
use std::io;
use std::process::ExitCode;

fn main(rt: HostRuntime) -> ExitCode {
    let words = match words_of(&rt) {
        Ok(words) => words,
        Err(code) => return ExitCode::from(code),
    };
    let mut files = StdFiles::new(rt);
    let mut out = StdSink::new(io::writer(&rt));
    let mut progress = StdSink::new(rt.stderr());
    let status = run(rt.alloc(), &words, &mut files, &mut out, &mut progress);
    ExitCode::from(status.code())
}
