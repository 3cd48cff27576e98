//! The two lines that a report begins with.

ghost use Rattle.std.specs.Prelude.{ℕ, List, [], MatchOption, MatchResult};
ghost use Rattle.spec_core.specs.Sig.{Sig};
ghost use Rattle.spec_core.specs.Declarations.{IsDeclared};
ghost use Rattle.report_reader.specs.Answers.{TellsFault};
ghost use Rattle.report_reader.specs.Behind.{IsBehind};
ghost use Rattle.report_reader.specs.FirstLines.{IsStepsLine};
ghost use Rattle.report_reader.specs.Stages.{between, titled};

use crate::errors::ReportError;
use crate::first_lines::last_number;
use crate::lines::Lines;

/// The greatest number of rule uses that one evaluation may cost.
const MAX_STEPS: u32 = 100_000;

/// The number of steps in the two lines that the text begins with, and the lines after them.
pub fn read_header(text: &[u8]) -> Result<(u32, Lines<'_>), ReportError>
    ensures { (sig : Sig) → IsDeclared sig → MatchResult result
        (λ p. IsBehind sig text.now p.1 (between (record { steps = p.0; claims = [] })))
        (λ e. TellsFault sig text.now e) }
{
    let first = Lines::of(text);
    let (title, second) = first.next_line()?;
    if title == b"spike-report 1".as_slice() {
        return read_steps_line(second);
    }
    Err(first.fault())
}

/// The number of steps in the second line, and the lines after it.
fn read_steps_line(at: Lines<'_>) -> Result<(u32, Lines<'_>), ReportError>
    ensures { (sig : Sig) (text : List ℕ) → IsDeclared sig → IsBehind sig text at.entry titled
        → MatchResult result
        (λ p. IsBehind sig text p.1 (between (record { steps = p.0; claims = [] })))
        (λ e. TellsFault sig text e) }
{
    let (line, behind) = at.next_line()?;
    match steps_in(line) {
        Some(steps) => Ok((steps, behind)),
        None => Err(at.fault()),
    }
}

/// The number in the line `steps B`.
fn steps_in(line: &[u8]) -> Option<u32>
    ensures { MatchOption result ((n : ℕ) → IsStepsLine line.now n → ⊥)
        (λ n. IsStepsLine line.now n) }
{
    let steps = last_number(line, b"steps")?;
    if steps == 0 || steps > MAX_STEPS {
        return None;
    }
    Some(steps)
}
