//! `normalize`, and what it answers.

ghost use Rattle.std.specs.Prelude.{IfOk};
ghost use Rattle.spec_core.specs.WellSorted.{IsWellSorted};
ghost use Rattle.normalization.specs.Narrow.{IsNarrow};
ghost use Rattle.normalization.specs.Normals.{IsNormalizing};

use crate::rewriter::Rewriter;
use crate::trace::Trace;
use spec_core::Spec;
use std::alloc::Global;
use term_core::{OutOfMemory, Seq, Term};

/// The normal form of a term, or that it takes too many uses.
#[derive(Drop)]
pub enum Normal {
    /// Each use is a place and the number of a rule, in order. A place is the path of argument
    /// numbers from the root. Arguments and rules count from 1.
    Done {
        term: Term,
        uses: Seq<(Seq<u8>, u32)>,
    },
    /// More uses than the budget are needed.
    Spent,
}

impl<'a> Rewriter<'a> {
    /// The normal form of the term by leftmost-innermost uses of rules without guards, of which the
    /// one of least number is used at each place. `budget` is the greatest number of uses.
    ///
    /// Each subterm is normalized once: what stands for a variable of a
    /// rule is normal already. A use costs by its place's length and the rule, and nothing for the
    /// rest of the term. What stands for a variable is shared, and adds to the cost only if the
    /// variable occurs more than once on the left side: it is compared there.
    ///
    /// The stack grows with the length of the place and a right side's depth alone, so with the
    /// depth of the terms on the way, and not with the number of uses.
    pub fn normalize(&self, alloc: Global, term: &Term, budget: u32) -> Result<Normal, OutOfMemory>
        requires fine { IsWellSorted self.now }
        requires narrow { IsNarrow term.now }
        ensures { IfOk result (IsNormalizing self.now term.now budget) }
    {
        let mut trace = Trace::new(alloc);
        let copied = term.copy(alloc)?;
        match self.walk(alloc, term, copied, budget, &mut trace)? {
            Some(term) => Ok(Normal::Done {
                term,
                uses: Seq::from_vec(trace.uses),
            }),
            None => Ok(Normal::Spent),
        }
    }
}

/// The normal form of one term, as [`Rewriter::normalize`] finds it. Who normalizes more than one
/// makes a [`Rewriter`].
pub fn normalize(
    alloc: Global,
    spec: &Spec,
    term: &Term,
    budget: u32,
) -> Result<Normal, OutOfMemory>
    requires fine { IsWellSorted spec.now }
    requires narrow { IsNarrow term.now }
    ensures { IfOk result (IsNormalizing spec.now term.now budget) }
{
    Rewriter::new(alloc, spec)?.normalize(alloc, term, budget)
}
