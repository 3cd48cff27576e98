//! The first use alone.

ghost use Rattle.std.specs.Prelude.{IfOk};
ghost use Rattle.spec_core.specs.WellSorted.{IsWellSorted};
ghost use Rattle.normalization.specs.Narrow.{IsNarrow};
ghost use Rattle.normalization.specs.Firsts.{HasFirst};

use crate::rewriter::Rewriter;
use std::alloc::Global;
use term_core::{OutOfMemory, Term, TermNode};

impl<'a> Rewriter<'a> {
    /// The place and the rule of the leftmost-innermost use, or None if the term is normal. It
    /// looks through the term up to that place.
    pub fn first_use(
        &self,
        alloc: Global,
        term: &Term,
    ) -> Result<Option<(Vec<u8>, u32)>, OutOfMemory>
        requires fine { IsWellSorted self.now }
        requires narrow { IsNarrow term.now }
        ensures { IfOk result (HasFirst self.now term.now) }
    {
        let TermNode::App(_, args) = &term.node else {
            return Ok(None);
        };
        for (index, arg) in args.as_slice().iter().enumerate() {
            if let Some((mut place, number)) = self.first_use(alloc, arg)? {
                place.insert(0, index as u8 + 1)?;
                return Ok(Some((place, number)));
            }
        }
        let Some(index) = self.first_rule(alloc, term)? else {
            return Ok(None);
        };
        Ok(Some((Vec::new(alloc), index as u32 + 1)))
    }
}
