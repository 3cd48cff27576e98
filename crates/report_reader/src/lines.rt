//! The lines of a text that are left.

ghost use Rattle.std.specs.Prelude.{◌≡◌, ◌≤◌, ◌<◌, ◌+◌, ◌*◌, ◌^◌, MatchResult, length};

use crate::errors::ReportError;
use proof_script::split_line;

/// The lines of a text that are left.
#[derive(Clone, Copy)]
pub struct Lines<'a> {
    pub rest: &'a [u8],
    /// How many bytes were read.
    pub read: usize,
    /// The number of the next line, from 1.
    pub number: u64,
    ghost fits: { read + length rest.now < 2 ^ 64 },
    ghost counted: { 2 * number ≤ read + 2 },
}

impl<'a> Lines<'a> {
    ghost use Rattle.report_reader.specs.Lines.{HasNoLine, IsNext};

    /// All lines of the text.
    pub fn of(text: &'a [u8]) -> Lines<'a>
        ensures rest { result.rest.now ≡ text.now }
        ensures read { result.read ≡ 0 }
        ensures number { result.number ≡ 1 }
    {
        Lines {
            rest: text,
            read: 0,
            number: 1,
        }
    }

    /// That the next line can't continue.
    pub fn fault(self) -> ReportError
        ensures { result ≡ ReportError.Line self.entry.number }
    {
        ReportError::Line { line: self.number }
    }

    /// The next line without its newline, and the lines after it. No line of a report is empty.
    pub fn next_line(self) -> Result<(&'a [u8], Lines<'a>), ReportError>
        ensures { MatchResult result
            (λ p. IsNext self.entry p.0.now p.1) (λ e. HasNoLine self.entry e) }
    {
        let Some((line, rest)) = split_line(self.rest) else {
            return Err(self.fault());
        };
        if line.is_empty() {
            return Err(self.fault());
        }
        let read = self.read + line.len() + 1;
        let number = self.number + 1;
        Ok((line, Lines { rest, read, number }))
    }
}
