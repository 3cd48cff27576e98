//! Where a text has its goals, and a report its claims.

ghost use Rattle.std.specs.Prelude.{◌≤◌};

use std::alloc::Global;
use term_core::OutOfMemory;

/// The words with which claims begin.
const CLAIM_WORDS: [&[u8]; 3] = [b"proved ", b"refuted ", b"open "];

/// A report's text in its parts.
#[derive(Drop)]
pub(crate) struct ReportParts {
    /// The lines before the first claim.
    pub(crate) header: Vec<u8>,
    /// The lines of each claim.
    pub(crate) claims: Vec<Vec<u8>>,
}

impl ReportParts {
    pub(crate) fn of(alloc: Global, report: &[u8]) -> Result<ReportParts, OutOfMemory> {
        let mut parts = ReportParts {
            header: Vec::new(alloc),
            claims: Vec::new(alloc),
        };
        for line in report.split_inclusive(|byte| *byte == b'\n') {
            parts.add(alloc, line)?;
        }
        Ok(parts)
    }

    /// Adds the next line: a claim begins with it, or it is one more of the last claim.
    fn add(&mut self, alloc: Global, line: &[u8]) -> Result<(), OutOfMemory> {
        if CLAIM_WORDS.iter().any(|word| line.starts_with(word)) {
            self.claims.push(Vec::from_slice(alloc, line)?)?;
            return Ok(());
        }
        if line == b"done\n".as_slice() {
            return Ok(());
        }
        match self.claims.last_mut() {
            Some(claim) => claim.extend_from_slice(line)?,
            None => self.header.extend_from_slice(line)?,
        }
        Ok(())
    }
}

/// Where a goal begins whose name is at this place: its word `goal`, or the lines of comments just
/// above it.
pub(crate) fn goal_place(text: &[u8], name: usize) -> usize {
    let mut place = name;
    while place > 0 && !begins_goal(text, place) {
        place -= 1;
    }
    with_comments(text, place)
}

/// Whether the text goes on with the word `goal` here.
fn begins_goal(text: &[u8], place: usize) -> bool {
    match text.get(place..) {
        Some(rest) => rest.starts_with(b"goal"),
        None => false,
    }
}

/// The beginning of the lines of comments just above this place, if only blanks are before it in
/// its line, or else the place itself.
fn with_comments(text: &[u8], place: usize) -> usize {
    let mut line = line_start(text, place);
    if !is_blank(text, line, place) {
        return place;
    }
    let mut found = line;
    while line > 0 {
        let above = line_start(text, line - 1);
        if text.get(above) != Some(&b'#') {
            break;
        }
        found = above;
        line = above;
    }
    found
}

/// The beginning of the line that has this place.
fn line_start(text: &[u8], place: usize) -> usize
    ensures { result ≤ place }
{
    let mut start = place;
    while start > 0 && text.get(start - 1) != Some(&b'\n') {
        start -= 1;
    }
    start
}

/// Whether only blanks are between these places.
fn is_blank(text: &[u8], from: usize, to: usize) -> bool {
    match text.get(from..to) {
        Some(part) => part.iter().all(|byte| *byte == b' ' || *byte == b'\t'),
        None => false,
    }
}
