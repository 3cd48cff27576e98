//! What a command writes for an accepted file, and the status.

ghost use Rattle.std.specs.Prelude.{◌≡◌, ◌≤◌, IfOk, length};
ghost use Rattle.spec_grammar.specs.Limits.{file_limit};
ghost use Rattle.spec_order.specs.Orders.{order_of};
ghost use Rattle.accepted_spec.specs.Meanings.{IsAcceptedAs};
ghost use Rattle.explore_cli.specs.Values.{IsExplored};
ghost use Rattle.explore_cli.specs.Written.{IsEnd, chosen as chosen_of};

use crate::bases::base_of;
use crate::proposals::found;
use crate::statuses::status_of;
use accepted_spec::Accepted;
use explorations::{Exploration, nothing_added};
use explore_words::{Command, Form};
use file_replies::Ending;
use io_core::Sink;
use proof_script::one_report;
use spec_grammar::MAX_FILE_BYTES;
use std::alloc::Global;
use term_core::OutOfMemory;

/// What a command writes for an accepted file, and the status.
pub fn explored<P: Sink>(
    alloc: Global,
    command: &Command,
    bytes: &[u8],
    accepted: Accepted,
    progress: &mut P,
) -> Result<Ending, OutOfMemory>
    requires sized { length bytes.now ≤ MAX_FILE_BYTES }
    requires within { length bytes.now ≤ file_limit bytes.now }
    requires accepted { IsAcceptedAs bytes.now accepted.raw accepted.admitted.spec }
    requires ordered { accepted.admitted.order ≡ order_of accepted.admitted.spec }
    ensures { IfOk result (λ end. IsEnd command.now.form accepted.admitted.spec
        end.text.items end.status) }
{
    let found = exploration(alloc, command, bytes, accepted, progress)?;
    let status = status_of(found.accepted.spec(), &found.report);
    let text = chosen(command.form, found);
    Ok(Ending { text, status })
}

/// The text or the report of an exploration.
fn chosen(form: Form, found: Exploration) -> Vec<u8>
    ensures { result.items ≡ chosen_of form found.text.items found.report_text.items }
{
    match form {
        Form::Text => found.text,
        Form::Report => found.report_text,
    }
}

/// What the finder proposes for a file, if it is an exploration, or else the file and the report of
/// `prove`.
fn exploration<P: Sink>(
    alloc: Global,
    command: &Command,
    bytes: &[u8],
    accepted: Accepted,
    progress: &mut P,
) -> Result<Exploration, OutOfMemory>
    requires sized { length bytes.now ≤ MAX_FILE_BYTES }
    requires within { length bytes.now ≤ file_limit bytes.now }
    requires accepted { IsAcceptedAs bytes.now accepted.raw accepted.admitted.spec }
    requires ordered { accepted.admitted.order ≡ order_of accepted.admitted.spec }
    ensures { IfOk result (IsExplored accepted.admitted.spec) }
{
    nothing_added();
    one_report();
    let base = base_of(alloc, &accepted.admitted)?;
    if let Some(found) = found(alloc, command, bytes, &accepted, &base, progress)? {
        return Ok(found);
    }
    let text = Vec::from_slice(alloc, bytes)?;
    Ok(Exploration {
        text,
        accepted,
        report: base.report,
        report_text: base.text,
    })
}
