//! `copied`, a copy of a clause, `with_sort`, and `keep`.

ghost use Rattle.std.specs.Prelude.{◌≡◌, IfOk};

use clause_core::{Clause, copy_equations, tidied_within};
use std::alloc::Global;
use term_core::{OutOfMemory, Seq, SortId};

/// A copy of the clause, which shares its terms.
pub(crate) fn copied(alloc: Global, clause: &Clause) -> Result<Clause, OutOfMemory>
    ensures { IfOk result (λ made. made ≡ clause.now) }
{
    let conclusions = copy_equations(alloc, clause.conclusions.as_slice())?;
    clause.with_equations(alloc, true, conclusions)
}

/// The sorts with a further one.
pub(crate) fn with_sort(
    alloc: Global,
    sorts: &[SortId],
    sort: SortId,
) -> Result<Seq<SortId>, OutOfMemory> {
    let mut made = sorts.to_vec(alloc)?;
    made.push(sort)?;
    Ok(Seq::from_vec(made))
}

/// Adds the clause that was made, tidied, if it is within the limits of a clause in a proof.
pub(crate) fn keep(
    alloc: Global,
    made: Clause,
    found: &mut Vec<Clause>,
) -> Result<(), OutOfMemory> {
    if let Some(made) = tidied_within(alloc, made)? {
        found.push(made)?;
    }
    Ok(())
}
