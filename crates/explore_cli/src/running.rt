//! `run`: the words, the file, and what is written for it.

ghost use Rattle.std.specs.Prelude.{◌≡◌, ◌≤◌, ℕ, List, length, map, string_bytes};
ghost use Rattle.spec_grammar.specs.Limits.{file_limit};
ghost use Rattle.explore_words.specs.Requests.{task_of};
ghost use Rattle.explore_words.specs.Words.{Asks};
ghost use Rattle.explore_cli.specs.Runs.{AsksFiles, Means};
ghost use Rattle.explore_cli.specs.Stops.{MeansFor};

use crate::exploring::explored;
use accepted_spec::specification;
use explore_words::{Command, Request, help_text, request_of, usage_line};
use file_replies::{Status, ended, read_text, refuse};
use io_core::{Files, ReadError, Sink, write_all};
use spec_grammar::MAX_FILE_BYTES;
use std::alloc::Global;

/// Does all that the program does: reads the file that the words name from `files`, appends the
/// text or the report of an exploration, or the line that says why there is none, to `out`, and
/// says in `progress` what it tries.
pub fn run<F: Files, S: Sink, P: Sink>(
    alloc: Global,
    words: &[String],
    files: &mut F,
    out: &mut S,
    progress: &mut P,
) -> Status
    ensures means { Means (map string_bytes words.now) (F.held files.old)
        (F.faults files.old) (F.faults files.new) (S.written out.old) (S.written out.new)
        (S.faults out.old) (S.faults out.new) result }
    ensures asked { AsksFiles (map string_bytes words.now) (F.asked files.old) (F.asked files.new) }
    ensures stays { (name : List ℕ) → F.held files.new name ≡ F.held files.old name }
    ensures reads { F.faults files.old ≤ F.faults files.new }
    ensures writes { S.faults out.old ≤ S.faults out.new }
{
    match request_of(alloc, words) {
        Ok(Some(Request::Explore(command))) => {
            explore_file(alloc, words, &command, files, out, progress)
        }
        Ok(Some(Request::Help)) => {
            let wrote = write_all(out, alloc, help_text());
            ended(Status::Done, wrote)
        }
        Ok(None) => {
            let wrote = write_all(out, alloc, usage_line());
            ended(Status::Usage, wrote)
        }
        Err(_) => Status::OutOfMemory,
    }
}

/// Reads the file that the words name, and writes what they ask for.
fn explore_file<F: Files, S: Sink, P: Sink>(
    alloc: Global,
    words: &[String],
    command: &Command,
    files: &mut F,
    out: &mut S,
    progress: &mut P,
) -> Status
    requires { Asks (map string_bytes words.now) (task_of command.now) }
    ensures means { Means (map string_bytes words.now) (F.held files.old)
        (F.faults files.old) (F.faults files.new) (S.written out.old) (S.written out.new)
        (S.faults out.old) (S.faults out.new) result }
    ensures asked { AsksFiles (map string_bytes words.now) (F.asked files.old) (F.asked files.new) }
    ensures stays { (name : List ℕ) → F.held files.new name ≡ F.held files.old name }
    ensures reads { F.faults files.old ≤ F.faults files.new }
    ensures writes { S.faults out.old ≤ S.faults out.new }
{
    let _words = words;
    match read_text(alloc, command.file, files) {
        Ok(bytes) => explore_bytes(alloc, command, &bytes, out, progress),
        Err(ReadError::TooLong) => ended(
            Status::Refused,
            write_all(out, alloc, b"refused length\n"),
        ),
        Err(ReadError::Failed) => Status::ReadFault,
        Err(ReadError::OutOfMemory) => Status::OutOfMemory,
    }
}

/// Writes what a command asks for on the bytes of its file.
fn explore_bytes<S: Sink, P: Sink>(
    alloc: Global,
    command: &Command,
    bytes: &[u8],
    out: &mut S,
    progress: &mut P,
) -> Status
    requires sized { length bytes.now ≤ MAX_FILE_BYTES }
    requires within { length bytes.now ≤ file_limit bytes.now }
    ensures means { MeansFor (task_of command.now) bytes.now (S.written out.old) (S.written out.new)
        (S.faults out.old) (S.faults out.new) result }
    ensures writes { S.faults out.old ≤ S.faults out.new }
{
    match specification(alloc, bytes) {
        Ok(accepted) => match explored(alloc, command, bytes, accepted, progress) {
            Ok(ending) => ended(ending.status, write_all(out, alloc, &ending.text)),
            Err(_) => Status::OutOfMemory,
        },
        Err(refusal) => refuse(alloc, refusal, out),
    }
}
