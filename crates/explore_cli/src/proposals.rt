//! What the finder proposes for an accepted file, if it is an exploration.

ghost use Rattle.std.specs.Prelude.{◌≤◌, IfOk, IfSome, length};
ghost use Rattle.accepted_spec.specs.Meanings.{IsAccepted, IsAcceptedAs};
ghost use Rattle.explore_cli.specs.Values.{IsFound};

use crate::bases::Base;
use crate::progress::Lines;
use accepted_spec::{Accepted, Refusal, specification};
use explorations::{Exploration, checked};
use explore_words::Command;
use file_replies::MAX_REPORT_BYTES;
use io_core::Sink;
use lemma_search::{ExploreBounds, Proposal, Sources, explore};
use spec_admit::Admitted;
use spec_grammar::MAX_FILE_BYTES;
use spec_order::AnyOrder;
use spike_cli::one_ending;
use std::alloc::Global;
use term_core::{Name, OutOfMemory};

/// What the finder proposes for a file, if it is an exploration over the report of `prove`.
pub fn found<P: Sink>(
    alloc: Global,
    command: &Command,
    bytes: &[u8],
    accepted: &Accepted,
    base: &Base,
    progress: &mut P,
) -> Result<Option<Exploration>, OutOfMemory>
    requires sized { length bytes.now ≤ MAX_FILE_BYTES }
    requires accepted { IsAcceptedAs bytes.now accepted.now.raw accepted.now.admitted.spec }
    ensures { IfOk result (λ found. IfSome found
        (IsFound accepted.now.admitted.spec base.now.report)) }
{
    let Proposal { text, report } = proposal(alloc, command, bytes, accepted, base, progress)?;
    if report.len() > MAX_REPORT_BYTES {
        return Ok(None);
    }
    let answer = checked(alloc, accepted.spec(), &base.report, text, report)?;
    Ok(answer)
}

/// What the finder proposes for a file.
fn proposal<'a, P: Sink>(
    alloc: Global,
    command: &Command,
    bytes: &'a [u8],
    accepted: &Accepted,
    base: &'a Base,
    progress: &mut P,
) -> Result<Proposal, OutOfMemory>
    requires sized { length bytes.now ≤ MAX_FILE_BYTES }
    requires accepted { IsAcceptedAs bytes.now accepted.now.raw accepted.now.admitted.spec }
{
    let growing = admitted_again(alloc, bytes)?;
    let asked = match command.goal {
        Some(name) => Some(Name::of(alloc, name.as_bytes())?),
        None => None,
    };
    let sources = Sources {
        text: bytes,
        report: &base.text,
        claims: base.report.claims.as_slice(),
        asked,
    };
    let mut lines = Lines {
        alloc,
        sink: progress,
        quiet: command.quiet,
    };
    explore(
        alloc,
        accepted,
        growing,
        sources,
        bounds_of(command),
        &mut lines,
    )
}

/// How far a command looks for lemmas.
fn bounds_of(command: &Command) -> ExploreBounds {
    ExploreBounds {
        work: u64::from(command.work),
        size: command.size,
        samples: command.samples,
        with_lemmas: !command.no_lemmas,
    }
}

/// The specification of an accepted text once more, to which goals may be added.
fn admitted_again(alloc: Global, bytes: &[u8]) -> Result<Admitted<AnyOrder>, OutOfMemory>
    requires sized { length bytes.now ≤ MAX_FILE_BYTES }
    requires accepted { IsAccepted bytes.now }
{
    one_ending();
    match specification(alloc, bytes) {
        Ok(again) => Ok(again.admitted),
        Err(Refusal::OutOfMemory) => Err(OutOfMemory),
        Err(Refusal::Line(_)) => unreachable!(),
    }
}
