//! Whether all variables of a clause occur in terms.

ghost use Rattle.std.specs.Prelude.{◌≡◌, [], ◌∷◌, IfOk};
ghost use Rattle.fitting_lists.specs.Fitting.{both_sides, has_all};

use crate::marking::{are_marked, mark, no_marks};
use clause_core::Clause;
use spec_core::Equation;
use std::alloc::Global;
use term_core::{OutOfMemory, Term, occurs};

/// Whether all variables of the clause are in the term. The term is walked once for each variable,
/// as far as its first occurrence.
pub fn has_all_variables(clause: &Clause, term: &Term) -> bool
    ensures { result ≡ has_all clause.now (term.now ∷ []) }
{
    for number in 0..clause.ctx.len() {
        if !occurs(number, term) {
            return false;
        }
    }
    true
}

/// Whether all variables of the clause are in the equation. Each side is walked once, the right one
/// only if the left one lacks some of them.
pub(crate) fn equation_has_all(
    alloc: Global,
    clause: &Clause,
    equation: &Equation,
) -> Result<bool, OutOfMemory>
    ensures { IfOk result (λ has. has ≡ has_all clause.now (both_sides equation.now)) }
{
    let mut marks = no_marks(alloc, clause.ctx.len())?;
    mark(&equation.left, &mut marks);
    if are_marked(&marks) {
        return Ok(true);
    }
    mark(&equation.right, &mut marks);
    Ok(are_marked(&marks))
}
