//! `run`: the task of the words, its file, and its end.

ghost use Rattle.std.specs.Prelude.{◌≡◌, ◌≤◌, ℕ, List, length, map, string_bytes};
ghost use Rattle.spec_grammar.specs.KeepsLimits.{KeepsLimits};
ghost use Rattle.spec_order.specs.Orders.{order_of};
ghost use Rattle.command_line.specs.Commands.{file_of, task_of};
ghost use Rattle.command_line.specs.Tasks.{Asks};
ghost use Rattle.file_replies.specs.Reported.{HasReports};
ghost use Rattle.file_replies.specs.Stops.{AsksFor, AsksForOn, FinishesReading};
ghost use Rattle.spike_cli.specs.Runs.{AsksFiles, IsEnd, MayWriteOn, Means, further_files};
ghost use Rattle.spike_cli.specs.Stops.{MeansFor};
ghost use Rattle.spike_cli.specs.Within.{TaskIsWithin};

use crate::checking::{check, upgrade};
use crate::evaluating::evaluate;
use crate::loading::load;
use crate::replying::Yes;
use crate::reporting::{search_alone, write_report};
use crate::sessions::carry_out_file;
use accepted_spec::{Accepted, specification};
use command_line::{Command, Request, request_of, usage_line};
use file_replies::{Status, Stop, ended, read_text, refuse, reply_to_file};
use io_core::{Files, ReadError, Sink, write_all};
use spec_grammar::MAX_FILE_BYTES;
use std::alloc::Global;

/// Does all that the program does: carries out the command that the words ask for, reads its files
/// from `files` and appends its text to `out`.
pub fn run<F: Files, S: Sink>(alloc: Global, words: &[String], files: &mut F, out: &mut S) -> Status
    ensures means { Means (map string_bytes words.now) (F.held files.old)
        (F.faults files.old) (F.faults files.new) (S.written out.old) (S.written out.new)
        (S.faults out.old) (S.faults out.new) result }
    ensures asked { AsksFiles (map string_bytes words.now) (F.held files.old)
        (F.asked files.old) (F.asked files.new) }
    ensures stays { (name : List ℕ) → F.held files.new name ≡ F.held files.old name }
    ensures reads { F.faults files.old ≤ F.faults files.new }
    ensures writes { S.faults out.old ≤ S.faults out.new }
{
    match request_of(alloc, words) {
        Ok(Some(Request::OnFile(command))) => run_on_file(alloc, words, &command, files, out),
        Ok(Some(Request::Load(goals))) => match load(alloc, goals, out) {
            Ok(status) => status,
            Err(stop) => stop.status(),
        },
        Ok(None) => {
            let wrote = write_all(out, alloc, usage_line());
            ended(Status::Usage, wrote)
        }
        Err(_) => Status::OutOfMemory,
    }
}

/// Reads the file of the command that the words ask for, and carries it out.
fn run_on_file<F: Files, S: Sink>(
    alloc: Global,
    words: &[String],
    command: &Command,
    files: &mut F,
    out: &mut S,
) -> Status
    requires { Asks (map string_bytes words.now) (file_of command.now) (task_of command.now) }
    ensures means { Means (map string_bytes words.now) (F.held files.old)
        (F.faults files.old) (F.faults files.new) (S.written out.old) (S.written out.new)
        (S.faults out.old) (S.faults out.new) result }
    ensures asked { AsksFiles (map string_bytes words.now) (F.held files.old)
        (F.asked files.old) (F.asked files.new) }
    ensures stays { (name : List ℕ) → F.held files.new name ≡ F.held files.old name }
    ensures reads { F.faults files.old ≤ F.faults files.new }
    ensures writes { S.faults out.old ≤ S.faults out.new }
{
    let _words = words;
    match read_text(alloc, command.file(), files) {
        Ok(bytes) => carry_out(alloc, command, &bytes, files, out),
        Err(ReadError::TooLong) => ended(
            Status::Refused,
            write_all(out, alloc, b"refused length\n"),
        ),
        Err(ReadError::Failed) => Status::ReadFault,
        Err(ReadError::OutOfMemory) => Status::OutOfMemory,
    }
}

/// Carries out a command on the bytes of its file.
fn carry_out<F: Files, S: Sink>(
    alloc: Global,
    command: &Command,
    bytes: &[u8],
    files: &mut F,
    out: &mut S,
) -> Status
    requires sized { length bytes.now ≤ MAX_FILE_BYTES }
    requires within { TaskIsWithin (task_of command.now) }
    ensures means { MeansFor (F.held files.old) (task_of command.now) bytes.now
        (F.faults files.old) (F.faults files.new)
        (S.written out.old) (S.written out.new) (S.faults out.old) (S.faults out.new) result }
    ensures asked { AsksForOn bytes.now (further_files (task_of command.now))
        (F.asked files.old) (F.asked files.new) }
    ensures stays { (name : List ℕ) → F.held files.new name ≡ F.held files.old name }
    ensures reads { F.faults files.old ≤ F.faults files.new }
    ensures writes { S.faults out.old ≤ S.faults out.new }
{
    match specification(alloc, bytes) {
        Ok(accepted) => match finish(alloc, command, &accepted, files, out) {
            Ok(status) => status,
            Err(stop) => stop.status(),
        },
        Err(refusal) => refuse(alloc, refusal, out),
    }
}

/// Carries out a command on the accepted specification of its file.
fn finish<F: Files, S: Sink>(
    alloc: Global,
    command: &Command,
    accepted: &Accepted,
    files: &mut F,
    out: &mut S,
) -> Result<Status, Stop>
    requires limits { KeepsLimits accepted.now.raw }
    requires ordered { accepted.now.admitted.order ≡ order_of accepted.now.admitted.spec }
    requires reported { HasReports accepted.now.admitted.spec }
    requires within { TaskIsWithin (task_of command.now) }
    ensures finishes { FinishesReading (S.written out.old) (S.written out.new)
        (S.faults out.old) (S.faults out.new) (F.faults files.old) (F.faults files.new)
        (IsEnd (F.held files.old) (task_of command.now) accepted.now.raw accepted.now.admitted.spec)
        (MayWriteOn (F.held files.old) (task_of command.now) accepted.now.raw
        accepted.now.admitted.spec)
        result }
    ensures asked { AsksFor (further_files (task_of command.now))
        (F.asked files.old) (F.asked files.new) }
    ensures stays { (name : List ℕ) → F.held files.new name ≡ F.held files.old name }
    ensures reads { F.faults files.old ≤ F.faults files.new }
    ensures writes { S.faults out.old ≤ S.faults out.new }
{
    match command {
        Command::Check { print, .. } => check(alloc, &accepted.raw, *print, out),
        Command::Refute { bounds, .. } => {
            write_report(alloc, &accepted.admitted, search_alone(*bounds), out)
        }
        Command::Prove { bounds, .. } => write_report(alloc, &accepted.admitted, *bounds, out),
        Command::Eval { term, steps, .. } => {
            evaluate(alloc, accepted.spec(), term.as_bytes(), *steps, out)
        }
        Command::Replay { report, .. } => {
            reply_to_file(alloc, &accepted.admitted, &Yes::Counts, report, files, out)
        }
        Command::Upgrade { .. } => upgrade(alloc, &accepted.raw, out),
        Command::Trim { report, .. } => {
            reply_to_file(alloc, &accepted.admitted, &Yes::Trimmed, report, files, out)
        }
        Command::Session { commands, .. } => {
            carry_out_file(alloc, &accepted.admitted, commands, files, out)
        }
    }
}
