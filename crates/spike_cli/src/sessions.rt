//! `session`: the second file, and what is written for its commands.

ghost use Rattle.std.specs.Prelude.{◌≡◌, ◌≤◌, ℕ, List, [], ◌∷◌, IfOk};
ghost use Rattle.spec_order.specs.Orders.{order_of};
ghost use Rattle.session_core.specs.declared.errors.CommandError.TheVariants.{Line};
ghost use Rattle.file_replies.specs.declared.statuses.Status.TheVariants.{Refused};
ghost use Rattle.spike_cli.specs.Sessions.{faulty_command_line, status_at_end as status_of_end};
ghost use Rattle.spike_cli.specs.Sessions.{IsFileSession, IsSession};
ghost use Rattle.spike_cli.specs.Sessions.{IsSomeFileSession, IsSomeSession};
ghost use Rattle.file_replies.specs.Stops.{AsksFor, Finishes, FinishesReading};
ghost use Rattle.file_replies.specs.Reported.{HasReports};

use file_replies::{Ending, Status, Stop};
use io_core::{Files, ReadError, Sink, write_all};
use session_core::{CommandError, read_commands, session_text};
use soundness::accepted_are_true;
use spec_admit::Admitted;
use spec_order::AnyOrder;
use std::alloc::Global;
use term_core::OutOfMemory;

/// The greatest number of bytes of a text of commands.
pub const MAX_COMMAND_BYTES: usize = 16_777_216;

/// Reads the commands of a file, carries them out, and writes what a session writes for them.
pub fn carry_out_file<F: Files, S: Sink>(
    alloc: Global,
    admitted: &Admitted<AnyOrder>,
    commands: &str,
    files: &mut F,
    out: &mut S,
) -> Result<Status, Stop>
    requires ordered { admitted.now.order ≡ order_of admitted.now.spec }
    requires reported { HasReports admitted.now.spec }
    ensures finishes { FinishesReading (S.written out.old) (S.written out.new)
        (S.faults out.old) (S.faults out.new) (F.faults files.old) (F.faults files.new)
        (IsFileSession admitted.now.spec (F.held files.old commands.now))
        (IsSomeFileSession admitted.now.spec (F.held files.old commands.now)) result }
    ensures asked { AsksFor (commands.now ∷ []) (F.asked files.old) (F.asked files.new) }
    ensures stays { (name : List ℕ) → F.held files.new name ≡ F.held files.old name }
    ensures reads { F.faults files.old ≤ F.faults files.new }
    ensures writes { S.faults out.old ≤ S.faults out.new }
{
    match files.read(alloc, commands, MAX_COMMAND_BYTES) {
        Ok(bytes) => carry_out_bytes(alloc, admitted, &bytes, out),
        Err(ReadError::TooLong) => {
            write_all(out, alloc, b"refused commands length\n")?;
            Ok(Status::Refused)
        }
        Err(ReadError::Failed) => Err(Stop::ReadFault),
        Err(ReadError::OutOfMemory) => Err(Stop::OutOfMemory),
    }
}

/// Carries out the commands of these bytes, and writes what a session writes for them.
fn carry_out_bytes<S: Sink>(
    alloc: Global,
    admitted: &Admitted<AnyOrder>,
    bytes: &[u8],
    out: &mut S,
) -> Result<Status, Stop>
    requires ordered { admitted.now.order ≡ order_of admitted.now.spec }
    requires reported { HasReports admitted.now.spec }
    ensures finishes { Finishes (S.written out.old) (S.written out.new)
        (S.faults out.old) (S.faults out.new) (IsSession admitted.now.spec bytes.now)
        (IsSomeSession admitted.now.spec bytes.now) result }
    ensures writes { S.faults out.old ≤ S.faults out.new }
{
    let session = session_of(alloc, admitted, bytes)?;
    write_all(out, alloc, &session.text)?;
    Ok(session.status)
}

/// What a session writes for the commands of these bytes.
fn session_of(
    alloc: Global,
    admitted: &Admitted<AnyOrder>,
    bytes: &[u8],
) -> Result<Ending, OutOfMemory>
    requires ordered { admitted.now.order ≡ order_of admitted.now.spec }
    requires reported { HasReports admitted.now.spec }
    ensures { IfOk result (λ session. IsSession admitted.now.spec bytes.now session.text.items
        session.status) }
{
    accepted_are_true(&admitted.order);
    let commands = match read_commands(alloc, &admitted.spec.sig, bytes) {
        Ok(commands) => commands,
        Err(error) => return faulty_line(alloc, error),
    };
    let session = session_text(alloc, admitted, &commands)?;
    Ok(Ending {
        text: session.text,
        status: status_at_end(session.is_open),
    })
}

/// What is written for commands of which a line is at fault.
fn faulty_line(alloc: Global, error: CommandError) -> Result<Ending, OutOfMemory>
    ensures { IfOk result (λ made. (line : ℕ) × (error ≡ Line line)
        × (made.text.items ≡ faulty_command_line line) × (made.status ≡ Refused)) }
{
    match error {
        CommandError::Line { line } => {
            let mut text = Vec::from_slice(alloc, b"refused commands line ")?;
            text.extend_from_slice(line.to_string(alloc)?.as_bytes())?;
            text.push(b'\n')?;
            Ok(Ending {
                text,
                status: Status::Refused,
            })
        }
        CommandError::OutOfMemory => Err(OutOfMemory),
    }
}

/// The status of a session, by whether a goal is under work at its end.
fn status_at_end(is_open: bool) -> Status
    ensures { result ≡ status_of_end is_open }
{
    if is_open { Status::Open } else { Status::Done }
}
