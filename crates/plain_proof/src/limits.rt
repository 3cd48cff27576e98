//! Whether two sides are within the limits of a clause.

ghost use Rattle.std.specs.Prelude.{◌↔◌, IfOk, IsTrue};
ghost use Rattle.plain_proof.specs.Limits.{AreWithin};

use clause_core::{Clause, within};
use spec_core::Equation;
use std::alloc::Global;
use term_core::{OutOfMemory, Seq, Term};

/// Whether the clause of these sides alone is within the limits of a clause in a proof.
pub(crate) fn are_within(alloc: Global, left: &Term, right: &Term) -> Result<bool, OutOfMemory>
    ensures { IfOk result (λ small. IsTrue small ↔ AreWithin left.now right.now) }
{
    let mut conclusions = Seq::new(alloc);
    conclusions.push(Equation {
        left: left.copy(alloc)?,
        right: right.copy(alloc)?,
    })?;
    let clause = Clause {
        ctx: Seq::new(alloc),
        premises: Seq::new(alloc),
        conclusions,
    };
    let small = within(&clause);
    Ok(small)
}
