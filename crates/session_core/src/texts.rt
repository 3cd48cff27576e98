//! What a session writes for its commands.

ghost use Rattle.std.specs.Prelude.{◌≡◌, ◌++◌, IfOk, OnOk};
ghost use Rattle.proof_script.specs.Claims.{report_text};
ghost use Rattle.session_core.specs.declared.commands.Command.TheVariants.{Undo};
ghost use Rattle.session_core.specs.Sessions.{IsStateOf};
ghost use Rattle.session_core.specs.SessionText.{IsSessionText};
ghost use Rattle.session_core.specs.Sound.{report_of};
ghost use Rattle.session_core.specs.States.{State as StateOf};
ghost use Rattle.session_core.specs.Value.{IsChange, IsSession};
ghost use Rattle.session_core.specs.Writing.{IsRefusalText, reply_line, AppendsReply, RepliesBy};

use crate::commands::Command;
use crate::errors::{SessionError, UndoError};
use crate::sessions::Session;
use crate::words::reason;
use proof_script::print_report;
use spec_admit::Admitted;
use spec_core::append_decimal;
use std::alloc::Global;
use term_core::OutOfMemory;
use term_order::TermOrder;

/// How many rule uses the evaluation of a side may cost, as the report of a session says it.
const REPORT_STEPS: u32 = 1000;

/// What a session writes, and whether a goal is under work at its end.
#[derive(Drop)]
pub struct WrittenSession {
    pub text: Vec<u8>,
    pub is_open: bool,
}

/// The answer to a command.
#[derive(Clone, Copy, Debug, PartialEq, Eq)]
pub(crate) enum Reply {
    /// It is carried out, and this many nodes have no step then.
    Pending(u32),
    /// It isn't carried out, for this reason.
    Refused(&'static [u8]),
}

/// Carries out the commands one after the other. What is written is a line for each, and at the end
/// the report of the goals that are proved.
pub fn session_text<O: TermOrder>(
    alloc: Global,
    admitted: &Admitted<O>,
    commands: &[Command],
) -> Result<WrittenSession, OutOfMemory>
    ensures { IfOk result (λ made. IsSessionText (O.above admitted.now.order) admitted.now.spec
        commands.now made.text.items made.is_open) }
{
    clause_core::one_relation(&admitted.order);
    let mut session = Session::new(alloc);
    let mut text = Vec::new(alloc);
    for command in commands {
        append_reply(alloc, admitted, &mut session, command, &mut text)?;
    }
    append_report(alloc, admitted, &session, &mut text)?;
    let is_open = session.open_node(admitted).is_some();
    Ok(WrittenSession { text, is_open })
}

/// Carries out the command, and appends the line that it gets.
fn append_reply<O: TermOrder>(
    alloc: Global,
    admitted: &Admitted<O>,
    session: &mut Session,
    command: &Command,
    text: &mut Vec<u8>,
) -> Result<(), OutOfMemory>
    requires { IsSession (O.above admitted.now.order) admitted.now.spec session.old }
    ensures { OnOk result (AppendsReply (O.above admitted.now.order) admitted.now.spec session.old
        command.now session.new text.old.items text.new.items) }
{
    let reply = reply_to(alloc, admitted, session, command)?;
    append_line(reply, text)
}

/// Carries out the command.
fn reply_to<O: TermOrder>(
    alloc: Global,
    admitted: &Admitted<O>,
    session: &mut Session,
    command: &Command,
) -> Result<Reply, OutOfMemory>
    requires { IsSession (O.above admitted.now.order) admitted.now.spec session.old }
    ensures { IfOk result (RepliesBy (O.above admitted.now.order) admitted.now.spec session.old
        command.now session.new) }
{
    match command {
        Command::Goal(_) => reply_to_change(alloc, admitted, session, command),
        Command::Step(_) => reply_to_change(alloc, admitted, session, command),
        Command::Undo => Ok(reply_to_undo(admitted, session)),
    }
}

/// Carries out a goal or a step.
fn reply_to_change<O: TermOrder>(
    alloc: Global,
    admitted: &Admitted<O>,
    session: &mut Session,
    command: &Command,
) -> Result<Reply, OutOfMemory>
    requires carried { IsSession (O.above admitted.now.order) admitted.now.spec session.old }
    requires change { IsChange command.now }
    ensures { IfOk result (RepliesBy (O.above admitted.now.order) admitted.now.spec session.old
        command.now session.new) }
{
    clause_core::one_relation(&admitted.order);
    match session.apply(alloc, admitted, command) {
        Ok(pending) => Ok(Reply::Pending(pending)),
        Err(error) => Ok(Reply::Refused(refusal(error)?)),
    }
}

/// Takes the last command back.
fn reply_to_undo<O: TermOrder>(admitted: &Admitted<O>, session: &mut Session) -> Reply
    requires { IsSession (O.above admitted.now.order) admitted.now.spec session.old }
    ensures { RepliesBy (O.above admitted.now.order) admitted.now.spec session.old Undo session.new
        result }
{
    match session.undo(admitted) {
        Ok(pending) => Reply::Pending(pending),
        Err(UndoError::Nothing) => Reply::Refused(b"nothing to undo"),
    }
}

/// The words for the reason why a command isn't carried out, but for want of memory.
fn refusal(error: SessionError) -> Result<&'static [u8], OutOfMemory>
    ensures { IfOk result (λ text. IsRefusalText error text.now) }
{
    match error {
        SessionError::OutOfMemory => Err(OutOfMemory),
        _ => Ok(reason(error)),
    }
}

/// Appends the line of a reply.
fn append_line(reply: Reply, text: &mut Vec<u8>) -> Result<(), OutOfMemory>
    ensures { OnOk result (text.new.items ≡ text.old.items ++ reply_line reply) }
{
    match reply {
        Reply::Pending(count) => {
            text.extend_from_slice(b"ok ")?;
            append_decimal(count as usize, text)?;
        }
        Reply::Refused(why) => {
            text.extend_from_slice(b"refused ")?;
            text.extend_from_slice(why)?;
        }
    }
    text.push(b'\n')?;
    Ok(())
}

/// Appends the report of the goals that are proved.
fn append_report<O: TermOrder>(
    alloc: Global,
    admitted: &Admitted<O>,
    session: &Session,
    text: &mut Vec<u8>,
) -> Result<(), OutOfMemory>
    requires { IsSession (O.above admitted.now.order) admitted.now.spec session.now }
    ensures { OnOk result ((state : StateOf) →
        IsStateOf (O.above admitted.now.order) admitted.now.spec session.now.commands state →
        text.new.items
        ≡ text.old.items ++ report_text admitted.now.spec.sig (report_of 1000 state)) }
{
    let report = session.report(alloc, admitted, REPORT_STEPS)?;
    let lines = print_report(alloc, &admitted.spec.sig, &report)?;
    text.extend_from_slice(&lines)?;
    Ok(())
}
