//! The variables of a term by number.

ghost use Rattle.term_core.specs.References.{terms_of};
ghost use Rattle.term_core.specs.Tree.{trees_of};
ghost use Rattle.term_order.specs.Operands.{meaning};
ghost use Rattle.kbo_order.specs.Operands.{meanings};
ghost use Rattle.kbo_order.specs.Weights.{times, times_in_all};
ghost use Rattle.kbo_order.specs.NextVariable.{IsNext};

use crate::operands::{Operands, Root};
use term_core::{Term, VarId};
use term_order::Operand;

/// The first variable by number, from this number on, that is in the term.
#[cycle(next)]
pub(crate) fn next_variable<'a>(from: u64, list: &[&'a Term], t: Operand<'a>) -> Option<VarId>
    ensures { IsNext from (λ x. times x (meaning (terms_of list.now) t.entry)) result }
{
    match Root::of(list, t) {
        Root::Var(x) => {
            if from <= u64::from(x.0) {
                Some(x)
            } else {
                None
            }
        }
        Root::App(_, args) => next_in_all(from, list, args),
    }
}

/// The first of those that are in some of the terms.
#[cycle(next)]
fn next_in_all<'a>(from: u64, list: &[&'a Term], terms: Operands<'a>) -> Option<VarId>
    ensures { let values = terms_of list.now in
        IsNext from (λ x. times_in_all x (trees_of (meanings values terms.entry))) result }
{
    let (first, rest) = terms.front()?;
    match (
        next_variable(from, list, first),
        next_in_all(from, list, rest),
    ) {
        (Some(x), Some(y)) => { if x.0 < y.0 { Some(x) } else { Some(y) } }
        (Some(x), None) => Some(x),
        (None, other) => other,
    }
}
