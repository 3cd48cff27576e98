//! Which sides of a clause's only conclusion may fall.

ghost use Rattle.std.specs.Prelude.{◌≡◌, ◌↔◌, IsTrue, [], ◌∷◌, IfOk, MatchOption};
ghost use Rattle.spec_core.specs.declared.records.Equation.{Equation as EquationOf};
ghost use Rattle.fitting_lists.specs.Answering.{AreVariables};
ghost use Rattle.fitting_lists.specs.Fitting.{both_sides};
ghost use Rattle.proof_search.specs.FallingSides.{AreFalling, AreLemmaSides, HasSorts, MayFall};
ghost use Rattle.proof_search.specs.FallingSides.{Permutes, marked};

use clause_core::Clause;
use fitting_lists::{Matcher, has_all_variables};
use spec_core::Equation;
use std::alloc::Global;
use term_core::{OutOfMemory, Term, front};
use term_order::TermOrder;

/// The sides of a clause's only conclusion whose instances may be above those of the other side.
#[derive(Clone, Copy)]
pub(crate) struct FallingSides {
    pub(crate) left: bool,
    pub(crate) right: bool,
}

impl FallingSides {
    /// Whether the left side, if true, or the right one is among them.
    pub(crate) fn has(self, left: bool) -> bool
        ensures { result ≡ marked left self }
    {
        if left { self.left } else { self.right }
    }
}

/// The sides that have all variables of the clause, and that the other side isn't above. If the
/// other side is above, so are its instances: no step by the side rewrites to what is less.
pub(crate) fn falling_sides<O: TermOrder>(order: &O, clause: &Clause) -> FallingSides
    ensures { AreFalling (O.above order.now) clause.now result }
{
    match only_conclusion(clause) {
        None => FallingSides {
            left: false,
            right: false,
        },
        Some(equation) => FallingSides {
            left: may_fall(order, clause, &equation.left, &equation.right),
            right: may_fall(order, clause, &equation.right, &equation.left),
        },
    }
}

/// Those of a lemma. Of an equation that permutes the left side alone is kept: a step by the right
/// side makes what one by the left side makes, too.
pub(crate) fn lemma_sides<O: TermOrder>(
    alloc: Global,
    order: &O,
    clause: &Clause,
) -> Result<FallingSides, OutOfMemory>
    requires { HasSorts clause.now }
    ensures { IfOk result (AreLemmaSides (O.above order.now) clause.now) }
{
    let sides = falling_sides(order, clause);
    if !sides.left || !sides.right || !clause.premises.is_empty() {
        return Ok(sides);
    }
    let Some(equation) = only_conclusion(clause) else {
        return Ok(sides);
    };
    if !permutes(alloc, clause.ctx.len(), equation)? {
        return Ok(sides);
    }
    Ok(FallingSides {
        left: true,
        right: false,
    })
}

/// Whether one list of terms for the equation's variables, of which there are this many, makes each
/// side the other one, as in plus(x, y) = plus(y, x).
fn permutes(alloc: Global, count: usize, equation: &Equation) -> Result<bool, OutOfMemory>
    requires { AreVariables count (both_sides equation.now) }
    ensures { IfOk result (λ yes. IsTrue yes ↔ Permutes count equation.now) }
{
    let mut matcher = Matcher::new(alloc);
    matcher.fitting(count, equation, &equation.right, &equation.left)
}

/// Whether the side has all variables of the clause, and the other side isn't above it.
fn may_fall<O: TermOrder>(order: &O, clause: &Clause, side: &Term, other: &Term) -> bool
    ensures { MayFall (O.above order.now) clause.now side.now other.now result }
{
    if !has_all_variables(clause, side) {
        return false;
    }
    !order.greater(other, side)
}

/// The clause's conclusion, if it has one alone.
pub(crate) fn only_conclusion(clause: &Clause) -> Option<&Equation>
    ensures { MatchOption result ((e : EquationOf) → clause.now.conclusions ≡ e ∷ [] → ⊥)
        (λ e. clause.now.conclusions ≡ e.now ∷ []) }
{
    match front(clause.conclusions.as_slice()) {
        Some((equation, others)) if others.is_empty() => Some(equation),
        _ => None,
    }
}
