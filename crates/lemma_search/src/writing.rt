//! The text with further goals, and the report on it.

use crate::entries::Origin;
use crate::library::Library;
use crate::places::goal_place;
use goal_lines::{SortNames, goal_line};
use spec_grammar::RawSpec;
use std::alloc::Global;
use term_core::OutOfMemory;

/// What an exploration proposes.
#[derive(Drop)]
pub struct Proposal {
    pub text: Vec<u8>,
    pub report: Vec<u8>,
}

/// The proposal of what is known: the file's text with each lemma before the next goal of the file,
/// and the claims of all entries after the first lines of a report.
pub(crate) fn written(
    alloc: Global,
    raw: &RawSpec,
    library: &Library<'_>,
    text: &[u8],
    header: &[u8],
) -> Result<Proposal, OutOfMemory> {
    let mut report = Vec::from_slice(alloc, header)?;
    for entry in &library.entries {
        report.extend_from_slice(&entry.claim)?;
    }
    report.extend_from_slice(b"done\n")?;
    Ok(Proposal {
        text: with_lemmas(alloc, raw, library, text)?,
        report,
    })
}

/// The file's text, with each lemma before the next goal of the file.
fn with_lemmas(
    alloc: Global,
    raw: &RawSpec,
    library: &Library<'_>,
    text: &[u8],
) -> Result<Vec<u8>, OutOfMemory> {
    let sorts = SortNames::of(alloc, raw)?;
    let spec = &library.admitted.spec;
    let mut made = Vec::new(alloc);
    let mut copied = 0;
    let mut given: usize = 0;
    for (entry, goal) in library.entries.iter().zip(spec.goals.as_slice()) {
        if entry.origin == Origin::File {
            given = given.saturating_add(1);
            continue;
        }
        let place = match raw.goals.as_slice().get(given) {
            Some(goal) => goal_place(text, goal.head.at),
            None => text.len(),
        };
        append_part(&mut made, text, copied, place)?;
        copied = place;
        made.extend_from_slice(&goal_line(alloc, &sorts, &spec.sig, goal)?)?;
        made.push(b'\n')?;
    }
    append_part(&mut made, text, copied, text.len())?;
    Ok(made)
}

/// Appends what the text has between these places.
fn append_part(made: &mut Vec<u8>, text: &[u8], from: usize, to: usize) -> Result<(), OutOfMemory> {
    if let Some(part) = text.get(from..to) {
        made.extend_from_slice(part)?;
    }
    Ok(())
}
