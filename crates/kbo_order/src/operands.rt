//! Lists of what is compared, and the root of a term.

ghost use Rattle.std.specs.Prelude.{◌≡◌, List, [], ◌∷◌, length, MatchOption};
ghost use Rattle.term_core.specs.References.{terms_of};
ghost use Rattle.term_core.specs.Tree.{Tree};
ghost use Rattle.term_order.specs.Operands.{meaning};
ghost use Rattle.kbo_order.specs.Operands.{meanings, IsRoot};

use term_core::{SymId, Term, TermNode, VarId};
use term_order::Operand;

/// Terms that are compared, all of them as they are or all as patterns.
#[derive(Clone, Copy)]
pub(crate) struct Operands<'a> {
    pub(crate) terms: &'a [Term],
    pub(crate) are_patterns: bool,
}

/// The root of a term that is compared: a variable, or a symbol with its arguments.
#[derive(Clone, Copy)]
pub(crate) enum Root<'a> {
    Var(VarId),
    App(SymId, Operands<'a>),
}

impl<'a> Root<'a> {
    /// The root of what the operand means by the list.
    pub(crate) fn of(list: &[&'a Term], operand: Operand<'a>) -> Root<'a>
        ensures { let values = terms_of list.now in
            IsRoot values (meaning values operand.entry) result }
    {
        let resolved = operand.resolved(list);
        let term = resolved.term;
        match &term.node {
            TermNode::Var(x) => Root::Var(*x),
            TermNode::App(f, args) => Root::App(
                *f,
                Operands {
                    terms: args.as_slice(),
                    are_patterns: resolved.is_pattern,
                },
            ),
        }
    }
}

impl<'a> Operands<'a> {
    pub(crate) fn len(self) -> usize
        ensures { (values : List Tree) → result ≡ length (meanings values self.entry) }
    {
        self.terms.len()
    }

    /// The first term and the others.
    pub(crate) fn front(self) -> Option<(Operand<'a>, Operands<'a>)>
        ensures { MatchOption result ((values : List Tree) → meanings values self.entry ≡ [])
            (λ p. (values : List Tree) →
            meanings values self.entry ≡ meaning values p.0 ∷ meanings values p.1) }
    {
        let is_pattern = self.are_patterns;
        match term_core::front(self.terms) {
            None => None,
            Some((term, terms)) => {
                let others = Operands {
                    terms,
                    are_patterns: is_pattern,
                };
                Some((Operand { term, is_pattern }, others))
            }
        }
    }
}
