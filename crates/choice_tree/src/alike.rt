//! Whether two clauses are written alike.

use clause_core::Clause;
use spec_core::Equation;

/// Whether the clauses have the same sorts of variables, and the same equations in one order.
pub(crate) fn clauses_alike(clause: &Clause, other: &Clause) -> bool {
    clause.ctx.as_slice() == other.ctx.as_slice()
        && equations_alike(clause.premises.as_slice(), other.premises.as_slice())
        && equations_alike(clause.conclusions.as_slice(), other.conclusions.as_slice())
}

fn equations_alike(equations: &[Equation], others: &[Equation]) -> bool {
    if equations.len() != others.len() {
        return false;
    }
    for (equation, other) in equations.iter().zip(others) {
        if !equation.left.same(&other.left) || !equation.right.same(&other.right) {
            return false;
        }
    }
    true
}
