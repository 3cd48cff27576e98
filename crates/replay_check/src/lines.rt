//! Numbers of lines.

ghost use Rattle.std.specs.Prelude.{◌≡◌, ◌+◌, suc, IfOk};
ghost use Rattle.acceptance.specs.Refusals.{lines_of};

use clause_core::Outcome;
use term_core::OutOfMemory;

/// The line of a claim after its first one and this many others. A number past 64 bits counts as
/// want of memory.
pub(crate) fn line_behind(first: u64, others: usize) -> Result<u64, OutOfMemory>
    ensures { IfOk result (λ line. line ≡ first + suc others) }
{
    let last = first.checked_add(others as u64).ok_or(OutOfMemory)?;
    last.checked_add(1).ok_or(OutOfMemory)
}

/// How many lines a claim has after its first one.
pub(crate) fn other_lines(outcome: &Outcome) -> usize
    ensures { suc result ≡ lines_of outcome.now }
{
    match outcome {
        Outcome::Proved(block) => block.steps.len(),
        Outcome::Refuted { values, .. } => values.len(),
        Outcome::Open(_) => 0,
    }
}
