//! `KnownClause`, with what is asked of it at each try.

ghost use Rattle.std.specs.Prelude.{◌≡◌, [], ◌∷◌, IfOk, IfSome};

use clause_core::{Clause, copy_equations};
use fitting_lists::{LeadingPlace, has_all_variables, leading};
use spec_core::Equation;
use std::alloc::Global;
use term_core::{OutOfMemory, Seq, SymId, Term, TermNode, front};
use term_order::TermOrder;

/// A clause that is known.
#[derive(Drop)]
pub(crate) struct KnownClause {
    pub(crate) clause: Clause,
    /// Where its leading equation is, if it has one.
    pub(crate) leading: Option<LeadingPlace>,
    /// The symbol at the root of the left side, if this side may rewrite.
    pub(crate) left: Option<SymId>,
    /// That of the right side.
    pub(crate) right: Option<SymId>,
}

impl KnownClause {
    /// A copy of the clause.
    pub(crate) fn of<O: TermOrder>(
        alloc: Global,
        order: &O,
        clause: &Clause,
    ) -> Result<KnownClause, OutOfMemory>
        ensures { IfOk result (λ known. known.clause ≡ clause.now) }
    {
        let (left, right) = match only_equation(clause) {
            None => (None, None),
            Some(equation) => (
                rewriting_head(order, clause, &equation.left, &equation.right),
                rewriting_head(order, clause, &equation.right, &equation.left),
            ),
        };
        let leading = leading(alloc, clause)?;
        Ok(KnownClause {
            clause: copy_clause(alloc, clause)?,
            leading,
            left,
            right,
        })
    }
}

/// The symbol at the root of the side, if the side has all variables of the clause and the other
/// side isn't above it. If it is above, so are its instances, and no use falls.
fn rewriting_head<O: TermOrder>(
    order: &O,
    clause: &Clause,
    side: &Term,
    other: &Term,
) -> Option<SymId> {
    let TermNode::App(sym, _) = &side.node else {
        return None;
    };
    if !has_all_variables(clause, side) || order.greater(other, side) {
        return None;
    }
    Some(*sym)
}

/// The clause's conclusion, if it is the only equation of the clause.
pub(crate) fn only_equation(clause: &Clause) -> Option<&Equation>
    ensures premises { IfSome result (λ e. clause.now.premises ≡ []) }
    ensures alone { IfSome result (λ e. clause.now.conclusions ≡ e.now ∷ []) }
{
    if !clause.premises.is_empty() {
        return None;
    }
    match front(clause.conclusions.as_slice()) {
        Some((equation, others)) if others.is_empty() => Some(equation),
        _ => None,
    }
}

fn copy_clause(alloc: Global, clause: &Clause) -> Result<Clause, OutOfMemory>
    ensures { IfOk result (λ made. made ≡ clause.now) }
{
    Ok(Clause {
        ctx: Seq::from_vec(clause.ctx.as_slice().to_vec(alloc)?),
        premises: Seq::from_vec(copy_equations(alloc, clause.premises.as_slice())?),
        conclusions: Seq::from_vec(copy_equations(alloc, clause.conclusions.as_slice())?),
    })
}
