//! Rows of members of lists, one of each list, the first list slowest.
use anyhow::Result;
use std::alloc::Global;
use term_core::{Term, Terms};

/// No list is made longer.
pub const MANY: usize = 41;

/// The first [`MANY`] rows. If each list has all members, or the first [`MANY`], so have the
/// rows.
pub fn product(alloc: Global, lists: &[&[Term]]) -> Result<Vec<Terms>> {
    let mut rows = Vec::new(alloc);
    rows.push(Terms::new(alloc))?;
    for list in lists {
        rows = longer_rows(alloc, &rows, list)?;
    }
    Ok(rows)
}

/// Each row with each member of the list after it, the first [`MANY`] of them.
fn longer_rows(alloc: Global, rows: &[Terms], list: &[Term]) -> Result<Vec<Terms>> {
    let mut made = Vec::new(alloc);
    for row in rows {
        for term in list {
            if made.len() >= MANY {
                return Ok(made);
            }
            let mut longer = row.copy(alloc)?;
            longer.push(term.copy(alloc)?)?;
            made.push(longer)?;
        }
    }
    Ok(made)
}
