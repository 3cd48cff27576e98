//! The values of variables at the samples.

use sample_values::{Samples, Value};
use std::alloc::Global;
use term_core::{OutOfMemory, SortId};

/// The most depth of a value at the first third of the samples, and at the others: small values are
/// more often the same, or in a special case.
const SMALL_ROOM: u32 = 3;

const ROOM: u32 = 6;

/// For each of this many samples a value of each variable.
pub(crate) fn drawn(
    alloc: Global,
    samples: &mut Samples<'_>,
    sorts: &[SortId],
    count: u32,
) -> Result<Vec<Vec<Value>>, OutOfMemory> {
    let mut rows = Vec::new(alloc);
    for sample in 0..count {
        let most = if sample < count / 3 { SMALL_ROOM } else { ROOM };
        rows.push(random_row(alloc, samples, sorts, most)?)?;
    }
    Ok(rows)
}

/// Values of the sorts with at most this depth, where a sort has one.
fn random_row(
    alloc: Global,
    samples: &mut Samples<'_>,
    sorts: &[SortId],
    most: u32,
) -> Result<Vec<Value>, OutOfMemory> {
    let mut row = Vec::with_capacity(alloc, sorts.len())?;
    for sort in sorts {
        let room = samples.number(most.max(1)).saturating_add(1);
        row.push(samples.random(alloc, *sort, room)?)?;
    }
    Ok(row)
}
