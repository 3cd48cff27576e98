//! The sort of a term.

ghost use Rattle.std.specs.Prelude.{◌↔◌, ◌≡◌, IsTrue, MatchOption};
ghost use Rattle.term_core.specs.Tree.{trees_of};
ghost use Rattle.term_core.specs.declared.ids.SortId.{SortId};
ghost use Rattle.spec_core.specs.Sorts.{Sorted, SortedAll};

use crate::symbols::Signature;
use term_core::{SortId, Term, TermNode, front};

impl Signature {
    /// The sort of the term, where the variable n has the sort at place n of `ctx`.
    #[cycle(sort)]
    pub fn sort_of(&self, ctx: &[SortId], term: &Term) -> Option<SortId>
        ensures { MatchOption result
            ((s : SortId) → Sorted self.now ctx.now term.now s → ⊥)
            (λ s. Sorted self.now ctx.now term.now s) }
    {
        match &term.node {
            TermNode::Var(var) => match ctx.get(var.0 as usize) {
                Some(sort) => Some(*sort),
                None => None,
            },
            TermNode::App(sym, args) => {
                if sym.0 >= self.symbols() {
                    return None;
                }
                let info = self.info(*sym);
                if self.are_sorted(ctx, args.as_slice(), info.args.as_slice()) {
                    Some(info.result)
                } else {
                    None
                }
            }
        }
    }

    /// Whether the terms have these sorts.
    #[cycle(sort)]
    fn are_sorted(&self, ctx: &[SortId], terms: &[Term], sorts: &[SortId]) -> bool
        ensures { IsTrue result ↔ SortedAll self.now ctx.now (trees_of terms.now) sorts.now }
    {
        let first = front(terms);
        let other = front(sorts);
        match (first, other) {
            (None, None) => true,
            (Some((term, terms)), Some((sort, sorts))) => {
                match self.sort_of(ctx, term) {
                    Some(found) => found.0 == sort.0 && self.are_sorted(ctx, terms, sorts),
                    None => false,
                }
            }
            _ => false,
        }
    }
}
