//! The first rule without guards that fits a root.

ghost use Rattle.std.specs.Prelude.{IfOk};
ghost use Rattle.spec_core.specs.WellSorted.{IsWellSorted};
ghost use Rattle.normalization.specs.Found.{IsFound};

use crate::rewriter::Rewriter;
use matching::fits;
use std::alloc::Global;
use term_core::{OutOfMemory, Term, TermNode};

impl<'a> Rewriter<'a> {
    /// The first rule without guards whose left side matches the term, as its index among all
    /// rules.
    pub(crate) fn first_rule(
        &self,
        alloc: Global,
        term: &Term,
    ) -> Result<Option<usize>, OutOfMemory>
        requires fine { IsWellSorted self.now }
        ensures { IfOk result (IsFound self.now term.now) }
    {
        let TermNode::App(sym, _) = &term.node else {
            return Ok(None);
        };
        let rules = self.rules();
        for place in self.rules_of(*sym) {
            let rule = &rules[*place];
            if !rule.guards.is_empty() {
                continue;
            }
            if fits(alloc, &rule.left, term)? {
                return Ok(Some(*place));
            }
        }
        Ok(None)
    }
}
