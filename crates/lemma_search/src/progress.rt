//! Who hears of an exploration while it goes on, and what is said.

use crate::bounds::Strength;
use spec_core::{Goal, append_decimal};
use std::alloc::Global;
use term_core::OutOfMemory;

/// A place for lines on what was found.
pub trait Progress {
    /// Takes a line without its end.
    fn tell(&mut self, line: &[u8]);
}

/// How lemmas are looked for.
#[derive(Clone, Copy)]
pub(crate) enum Way {
    /// From below, among terms of at most this size.
    Terms(u32),
    /// From the goal, among generalizations of clauses at which it is stuck.
    StuckClauses,
    /// Nowhere: the goal alone is tried.
    Alone,
}

/// How a goal ended.
#[derive(Clone, Copy)]
pub(crate) enum End {
    Proved,
    Refuted,
    Open,
}

/// The line on a goal when a stage of the search begins.
pub(crate) fn begin_line(
    alloc: Global,
    goal: &Goal,
    way: Way,
    strength: Strength,
) -> Result<Vec<u8>, OutOfMemory> {
    let mut line = line_of(alloc, goal)?;
    line.extend_from_slice(match way {
        Way::Terms(_) => b"looking for lemmas from below".as_slice(),
        Way::StuckClauses => b"looking for lemmas from its stuck clauses".as_slice(),
        Way::Alone => b"looking for a proof".as_slice(),
    })?;
    if strength == Strength::Freer {
        line.extend_from_slice(b", with the freer search")?;
    }
    Ok(line)
}

/// The line on the goal once no more lemmas are looked for.
pub(crate) fn end_line(alloc: Global, goal: &Goal, end: End) -> Result<Vec<u8>, OutOfMemory> {
    let mut line = line_of(alloc, goal)?;
    line.extend_from_slice(match end {
        End::Proved => b"proved".as_slice(),
        End::Refuted => b"refuted".as_slice(),
        End::Open => b"open".as_slice(),
    })?;
    Ok(line)
}

/// What a line on the goal begins with.
fn line_of(alloc: Global, goal: &Goal) -> Result<Vec<u8>, OutOfMemory> {
    let mut line = Vec::from_slice(alloc, goal.name.as_bytes())?;
    line.extend_from_slice(b": ")?;
    Ok(line)
}

/// Appends how a lemma was found, as a comment.
pub(crate) fn append_way(way: Way, units: u64, line: &mut Vec<u8>) -> Result<(), OutOfMemory> {
    line.extend_from_slice(b"    # ")?;
    match way {
        Way::Terms(size) => {
            line.extend_from_slice(b"from below, size ")?;
            append_decimal(size as usize, line)?;
        }
        Way::StuckClauses => line.extend_from_slice(b"from a stuck clause")?,
        Way::Alone => line.extend_from_slice(b"alone")?,
    }
    line.extend_from_slice(b", ")?;
    if let Ok(units) = usize::try_from(units) {
        append_decimal(units, line)?;
    }
    Ok(line.extend_from_slice(b" units")?)
}
