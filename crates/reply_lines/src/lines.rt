//! The lines of a yes and of a no, and the words of a reason.

ghost use Rattle.std.specs.Prelude.{◌≡◌, ◌++◌, IfOk, OnOk, codes};
ghost use Rattle.std.specs.Fmt.{decimal};
ghost use Rattle.reply_lines.specs.Lines as lines_of;
ghost use Rattle.reply_lines.specs.Lines.{claim_count, is_open, is_proved, is_refuted, step_text};
ghost use Rattle.reply_lines.specs.Lines.{why_text};

use clause_core::{Claim, Outcome, ReplayWhy, Why};
use std::alloc::Global;
use term_core::OutOfMemory;

/// The line of an accepted report with these claims.
pub fn yes_line(alloc: Global, claims: &[Claim]) -> Result<Vec<u8>, OutOfMemory>
    ensures { IfOk result (λ text. text.items ≡ lines_of.yes_line claims.now) }
{
    let mut text = Vec::from_slice(alloc, b"yes: proved ")?;
    append_count(alloc, proved_count(claims), &mut text)?;
    text.extend_from_slice(b", refuted ")?;
    append_count(alloc, refuted_count(claims), &mut text)?;
    text.extend_from_slice(b", open ")?;
    append_count(alloc, open_count(claims), &mut text)?;
    text.push(b'\n')?;
    Ok(text)
}

/// The lines of an accepted report of this many generated goals with these claims.
pub fn load_lines(alloc: Global, goals: u32, claims: &[Claim]) -> Result<Vec<u8>, OutOfMemory>
    ensures { IfOk result (λ text. text.items ≡ lines_of.load_lines goals claims.now) }
{
    let mut text = Vec::from_slice(alloc, b"load ")?;
    append_count(alloc, goals as usize, &mut text)?;
    text.extend_from_slice(b": proved ")?;
    append_count(alloc, proved_count(claims), &mut text)?;
    text.extend_from_slice(b", refuted ")?;
    append_count(alloc, refuted_count(claims), &mut text)?;
    text.extend_from_slice(b", open ")?;
    append_count(alloc, open_count(claims), &mut text)?;
    text.extend_from_slice(b"\nreplay: yes\n")?;
    Ok(text)
}

/// The line of a report that isn't accepted, with the number of its first line that is at fault.
pub fn no_line(alloc: Global, line: u64, why: &[u8]) -> Result<Vec<u8>, OutOfMemory>
    ensures { IfOk result (λ text. text.items ≡ lines_of.no_line line why.now) }
{
    let mut text = Vec::from_slice(alloc, b"no line ")?;
    text.extend_from_slice(line.to_string(alloc)?.as_bytes())?;
    text.extend_from_slice(b": ")?;
    text.extend_from_slice(why)?;
    text.push(b'\n')?;
    Ok(text)
}

/// The words for the reason why a report isn't accepted.
pub fn reason(why: ReplayWhy) -> &'static [u8]
    ensures { result.now ≡ why_text why }
{
    match why {
        ReplayWhy::UnknownGoal => b"unknown goal",
        ReplayWhy::GoalTwice => b"goal twice",
        ReplayWhy::Step(why) => step_reason(why),
        ReplayWhy::Pending => b"pending",
        ReplayWhy::NotSmaller => b"not smaller",
        ReplayWhy::Variables => b"variables",
        ReplayWhy::NotFalse => b"not false",
    }
}

/// The words for the reason why a step isn't defined.
fn step_reason(why: Why) -> &'static [u8]
    ensures { result.now ≡ step_text why }
{
    match why {
        Why::NoSuchNode => b"no such node",
        Why::NoSuchPlace => b"no such place",
        Why::NoSuchRule => b"no such rule",
        Why::DoesNotFit => b"does not fit",
        Why::NotProvedBefore => b"not proved before",
        Why::Sort => b"sort",
        Why::NotCovering => b"not covering",
        Why::Limit => b"limit",
    }
}

fn proved_count(claims: &[Claim]) -> usize
    ensures { result ≡ claim_count is_proved claims.now }
{
    let mut count = 0;
    for claim in claims {
        if matches!(claim.outcome, Outcome::Proved(_)) {
            count += 1;
        }
    }
    count
}

fn refuted_count(claims: &[Claim]) -> usize
    ensures { result ≡ claim_count is_refuted claims.now }
{
    let mut count = 0;
    for claim in claims {
        if matches!(claim.outcome, Outcome::Refuted { .. }) {
            count += 1;
        }
    }
    count
}

fn open_count(claims: &[Claim]) -> usize
    ensures { result ≡ claim_count is_open claims.now }
{
    let mut count = 0;
    for claim in claims {
        if matches!(claim.outcome, Outcome::Open(_)) {
            count += 1;
        }
    }
    count
}

fn append_count(alloc: Global, count: usize, text: &mut Vec<u8>) -> Result<(), OutOfMemory>
    ensures { OnOk result (text.new.items ≡ text.old.items ++ decimal count) }
{
    text.extend_from_slice(count.to_string(alloc)?.as_bytes())?;
    Ok(())
}
