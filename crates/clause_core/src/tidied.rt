//! `tidied_within` and `into_tidied`, which don't copy a tidied clause.

ghost use Rattle.std.specs.Prelude.{◌≡◌, IfOk};
ghost use Rattle.clause_core.specs.Tidied.{tidied, IsTidiedWithin};

use crate::clauses::Clause;
use crate::laws::tidying_laws;
use crate::standing::is_tidied_within;
use crate::tidying::tidy;
use std::alloc::Global;
use term_core::OutOfMemory;

/// The clause, tidied, or None if it passes the limits of a clause in a proof. It isn't copied
/// if it is tidied already.
pub fn tidied_within(alloc: Global, clause: Clause) -> Result<Option<Clause>, OutOfMemory>
    ensures { IfOk result (IsTidiedWithin clause) }
{
    tidying_laws();
    match is_tidied_within(&clause) {
        None => Ok(None),
        Some(true) => Ok(Some(clause)),
        Some(false) => Ok(Some(tidy(alloc, clause)?)),
    }
}

/// The clause, tidied. One within the limits isn't copied if it is tidied already.
pub fn into_tidied(alloc: Global, clause: Clause) -> Result<Clause, OutOfMemory>
    ensures { IfOk result (λ made. made ≡ tidied clause) }
{
    tidying_laws();
    match is_tidied_within(&clause) {
        Some(true) => Ok(clause),
        _ => tidy(alloc, clause),
    }
}
