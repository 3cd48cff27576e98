//! Left sides that differ at one place, before any unification.

ghost use Rattle.std.specs.Prelude.{IsTrue};
ghost use Rattle.term_core.specs.Tree.{trees_of};
ghost use Rattle.overlap_check.specs.Clashes.{HaveNoCommonInstance, HaveNoCommonInstances};

use term_core::{Term, TermNode, front};

/// Whether the terms have different symbols at one place, so that they have no instance in common.
/// It binds no variable: terms that don't clash may still have none.
#[cycle(clash)]
pub(crate) fn clash(left: &Term, right: &Term) -> bool
    ensures { IsTrue result → HaveNoCommonInstance left.now right.now }
{
    match (&left.node, &right.node) {
        (TermNode::App(sym, args), TermNode::App(other, others)) => {
            sym != other || clash_in_any(args.as_slice(), others.as_slice())
        }
        (TermNode::Var(_), _) | (_, TermNode::Var(_)) => false,
    }
}

/// Whether the terms are calls of two symbols.
pub(crate) fn are_of_two_symbols(left: &Term, right: &Term) -> bool
    ensures { IsTrue result → HaveNoCommonInstance left.now right.now }
{
    match (&left.node, &right.node) {
        (TermNode::App(sym, _), TermNode::App(other, _)) => sym != other,
        _ => false,
    }
}

/// Whether two terms at the same place of the lists clash.
#[cycle(clash)]
fn clash_in_any(left: &[Term], right: &[Term]) -> bool
    ensures { IsTrue result → HaveNoCommonInstances (trees_of left.now) (trees_of right.now) }
{
    let first = front(left);
    let other = front(right);
    match (first, other) {
        (Some((first, left)), Some((other, right))) => {
            clash(first, other) || clash_in_any(left, right)
        }
        _ => false,
    }
}
