//! `run`: the words, the file, and what is shown of it.

ghost use Rattle.std.specs.Prelude.{◌≡◌, ◌≤◌, ℕ, List, length, map, string_bytes};
ghost use Rattle.file_replies.specs.Stops.{AsksForOn};
ghost use Rattle.show_words.specs.Requests.{task_of};
ghost use Rattle.show_words.specs.Words.{Asks};
ghost use Rattle.show_cli.specs.Ends.{IsWithin, further_files};
ghost use Rattle.show_cli.specs.Runs.{AsksFiles, Means};
ghost use Rattle.show_cli.specs.Stops.{MeansFor};

use crate::viewing::show_spec;
use accepted_spec::specification;
use file_replies::{Status, ended, read_text, refuse};
use io_core::{Files, ReadError, Sink, write_all};
use show_words::{Command, Request, help_text, request_of, usage_line};
use spec_grammar::MAX_FILE_BYTES;
use std::alloc::Global;

/// Does all that the program does: reads the files that the words ask for from `files`, and appends
/// what is shown, or the line that says why nothing is, to `out`.
pub fn run<F: Files, S: Sink>(alloc: Global, words: &[String], files: &mut F, out: &mut S) -> Status
    ensures means { Means (map string_bytes words.now) (F.held files.old)
        (F.faults files.old) (F.faults files.new) (S.written out.old) (S.written out.new)
        (S.faults out.old) (S.faults out.new) result }
    ensures asked { AsksFiles (map string_bytes words.now) (F.held files.old)
        (F.asked files.old) (F.asked files.new) }
    ensures stays { (name : List ℕ) → F.held files.new name ≡ F.held files.old name }
    ensures reads { F.faults files.old ≤ F.faults files.new }
    ensures writes { S.faults out.old ≤ S.faults out.new }
{
    match request_of(alloc, words) {
        Ok(Some(Request::Show(command))) => show(alloc, words, &command, files, out),
        Ok(Some(Request::Help)) => {
            let wrote = write_all(out, alloc, help_text());
            ended(Status::Done, wrote)
        }
        Ok(None) => {
            let wrote = write_all(out, alloc, usage_line());
            ended(Status::Usage, wrote)
        }
        Err(_) => Status::OutOfMemory,
    }
}

/// Reads the file that the words ask for, and writes what is shown of it.
fn show<F: Files, S: Sink>(
    alloc: Global,
    words: &[String],
    command: &Command,
    files: &mut F,
    out: &mut S,
) -> Status
    requires { Asks (map string_bytes words.now) (task_of command.now) }
    ensures means { Means (map string_bytes words.now) (F.held files.old)
        (F.faults files.old) (F.faults files.new) (S.written out.old) (S.written out.new)
        (S.faults out.old) (S.faults out.new) result }
    ensures asked { AsksFiles (map string_bytes words.now) (F.held files.old)
        (F.asked files.old) (F.asked files.new) }
    ensures stays { (name : List ℕ) → F.held files.new name ≡ F.held files.old name }
    ensures reads { F.faults files.old ≤ F.faults files.new }
    ensures writes { S.faults out.old ≤ S.faults out.new }
{
    let _words = words;
    match read_text(alloc, command.file, files) {
        Ok(bytes) => show_bytes(alloc, command, &bytes, files, out),
        Err(ReadError::TooLong) => ended(
            Status::Refused,
            write_all(out, alloc, b"refused length\n"),
        ),
        Err(ReadError::Failed) => Status::ReadFault,
        Err(ReadError::OutOfMemory) => Status::OutOfMemory,
    }
}

/// Writes what is shown of the bytes of a file.
fn show_bytes<F: Files, S: Sink>(
    alloc: Global,
    command: &Command,
    bytes: &[u8],
    files: &mut F,
    out: &mut S,
) -> Status
    requires sized { length bytes.now ≤ MAX_FILE_BYTES }
    requires within { IsWithin (task_of command.now).view }
    ensures means { MeansFor (F.held files.old) (task_of command.now) bytes.now
        (F.faults files.old) (F.faults files.new)
        (S.written out.old) (S.written out.new) (S.faults out.old) (S.faults out.new) result }
    ensures asked { AsksForOn bytes.now (further_files (task_of command.now).view)
        (F.asked files.old) (F.asked files.new) }
    ensures stays { (name : List ℕ) → F.held files.new name ≡ F.held files.old name }
    ensures reads { F.faults files.old ≤ F.faults files.new }
    ensures writes { S.faults out.old ≤ S.faults out.new }
{
    match specification(alloc, bytes) {
        Ok(accepted) => match show_spec(alloc, command, &accepted.admitted, files, out) {
            Ok(status) => status,
            Err(stop) => stop.status(),
        },
        Err(refusal) => refuse(alloc, refusal, out),
    }
}
