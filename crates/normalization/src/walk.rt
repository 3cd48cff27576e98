//! Arguments from the left, then uses at the root.

ghost use Rattle.std.specs.Prelude.{◌≡◌, ◌≤◌, IfOk, IfSome, length};
ghost use Rattle.std.specs.List.{AllByRecursion};
ghost use Rattle.spec_core.specs.WellSorted.{IsWellSorted};
ghost use Rattle.normalization.specs.Narrow.{IsNarrow};
ghost use Rattle.normalization.specs.Walks.{IsInstance, AreInstances, IsWalk};
ghost use Rattle.normalization.specs.Openings.{IsWalkOfAll, IsOpening};

use crate::rewriter::Rewriter;
use crate::rewritten::rewrite;
use crate::trace::Trace;
use std::alloc::Global;
use std::mem;
use term_core::{OutOfMemory, Term, TermNode, Terms, VarId};

impl<'a> Rewriter<'a> {
    /// The normal form of the term, an instance of the pattern by normal terms, at the trace's
    /// place. Its uses are added, or they are too many for the budget.
    #[cycle(walk)]
    pub(crate) fn walk(
        &self,
        alloc: Global,
        pattern: &Term,
        term: Term,
        budget: u32,
        trace: &mut Trace,
    ) -> Result<Option<Term>, OutOfMemory>
        requires fine { IsWellSorted self.now }
        requires instance { IsInstance self.now pattern.now term }
        requires narrow { IsNarrow pattern.now }
        requires room { length trace.old.uses.items ≤ budget }
        ensures walked { IfOk result (IsWalk self.now trace.old.place.items budget term
            trace.old.uses.items trace.new.uses.items) }
        ensures stays { IfOk result (λ r. IfSome r (λ _.
            trace.new.place.items ≡ trace.old.place.items)) }
    {
        let Some(mut term) = self.open(alloc, pattern, term, budget, trace)? else {
            return Ok(None);
        };
        while let Some(index) = self.first_rule(alloc, &term)? {
            if trace.uses.len() >= budget as usize {
                return Ok(None);
            }
            trace.add(alloc, index as u32 + 1)?;
            let rule = &self.rules()[index];
            let made = rewrite(alloc, rule, &term)?;
            let Some(next) = self.open(alloc, &rule.right, made, budget, trace)? else {
                return Ok(None);
            };
            term = next;
        }
        Ok(Some(term))
    }

    /// The term with its arguments in their normal forms.
    #[cycle(walk)]
    fn open(
        &self,
        alloc: Global,
        pattern: &Term,
        term: Term,
        budget: u32,
        trace: &mut Trace,
    ) -> Result<Option<Term>, OutOfMemory>
        requires fine { IsWellSorted self.now }
        requires instance { IsInstance self.now pattern.now term }
        requires narrow { IsNarrow pattern.now }
        requires room { length trace.old.uses.items ≤ budget }
        ensures opened { IfOk result (IsOpening self.now trace.old.place.items budget term
            trace.old.uses.items trace.new.uses.items) }
        ensures stays { IfOk result (λ r. IfSome r (λ _.
            trace.new.place.items ≡ trace.old.place.items)) }
    {
        let TermNode::App(sym, patterns) = &pattern.node else {
            return Ok(Some(term));
        };
        match term.node {
            TermNode::Var(var) => Ok(Some(Term::var(var))),
            TermNode::App(_, args) => {
                let args = args.into_vec()?;
                match self.walk_all(alloc, patterns.as_slice(), args, budget, trace)? {
                    Some(normal) => Ok(Some(Term::app(*sym, normal))),
                    None => Ok(None),
                }
            }
        }
    }

    /// The normal forms of a symbol's arguments.
    #[cycle(walk)]
    fn walk_all(
        &self,
        alloc: Global,
        patterns: &[Term],
        mut args: Vec<Term>,
        budget: u32,
        trace: &mut Trace,
    ) -> Result<Option<Terms>, OutOfMemory>
        requires fine { IsWellSorted self.now }
        requires instances { AreInstances self.now patterns.now args.items }
        requires narrow { AllByRecursion IsNarrow patterns.now }
        requires few { length patterns.now ≤ 8 }
        requires room { length trace.old.uses.items ≤ budget }
        ensures walked { IfOk result (IsWalkOfAll self.now trace.old.place.items budget
            args.items trace.old.uses.items trace.new.uses.items) }
        ensures stays { IfOk result (λ r. IfSome r (λ _.
            trace.new.place.items ≡ trace.old.place.items)) }
    {
        let mut made = Terms::with_capacity(alloc, patterns.len())?;
        for (index, pattern) in patterns.iter().enumerate() {
            let arg = mem::replace(&mut args[index], Term::var(VarId(0)));
            trace.place.push(index as u8 + 1)?;
            let Some(normal) = self.walk(alloc, pattern, arg, budget, trace)? else {
                return Ok(None);
            };
            trace.place.pop();
            made.push(normal)?;
        }
        Ok(Some(made))
    }
}
