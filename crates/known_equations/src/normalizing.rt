//! Innermost rewriting, as far as the fuel reaches.

ghost use Rattle.std.specs.Prelude.{◌≤◌, IfOk, OnOk, map};
ghost use Rattle.term_core.specs.Tree.{trees_of};
ghost use Rattle.substitutions.specs.Substitution.{apply};
ghost use Rattle.known_equations.specs.Uses.{Rewrites};
ghost use Rattle.known_equations.specs.Chains.{Chain, Chains};

use crate::store::Store;
use std::alloc::Global;
use substitutions::Subst;
use term_core::{OutOfMemory, Term, TermNode, Terms};
use term_order::TermOrder;

impl<'a, O: TermOrder> Store<'a, O> {
    /// The normal form of the pattern's instance by entries that are normal: what stands for a
    /// variable isn't walked again. Each symbol of a pattern and each use takes one of the fuel.
    /// Without any, the rest stays as it is.
    #[cycle(normal)]
    pub(crate) fn normal_instance(
        &self,
        alloc: Global,
        pattern: &Term,
        entries: &Subst,
        fuel: &mut u32,
        work: &mut u64,
    ) -> Result<Term, OutOfMemory>
        ensures chain { IfOk result
            (Chain (Rewrites (O.above self.now.order) self.now)
            (apply entries.now.terms pattern.now)) }
        ensures fuel { OnOk result (fuel.new ≤ fuel.old) }
    {
        match &pattern.node {
            TermNode::Var(_) => entries.apply(alloc, pattern),
            TermNode::App(sym, patterns) => {
                if *fuel == 0 {
                    return entries.apply(alloc, pattern);
                }
                *fuel -= 1;
                let patterns = patterns.as_slice();
                let made = self.normal_instances(alloc, patterns, entries, fuel, work)?;
                self.normal_at_root(alloc, Term::app(*sym, made), fuel, work)
            }
        }
    }

    /// The normal forms of the patterns' instances, in their order.
    #[cycle(normal)]
    fn normal_instances(
        &self,
        alloc: Global,
        patterns: &[Term],
        entries: &Subst,
        fuel: &mut u32,
        work: &mut u64,
    ) -> Result<Terms, OutOfMemory>
        ensures chains { IfOk result (λ made.
            Chains (Rewrites (O.above self.now.order) self.now)
            (trees_of (map (apply entries.now.terms) patterns.now)) (trees_of made)) }
        ensures fuel { OnOk result (fuel.new ≤ fuel.old) }
    {
        let mut made = Terms::with_capacity(alloc, patterns.len())?;
        for pattern in patterns {
            made.push(self.normal_instance(alloc, pattern, entries, fuel, work)?)?;
        }
        Ok(made)
    }

    /// The normal form of a term whose arguments are normal.
    #[cycle(normal)]
    fn normal_at_root(
        &self,
        alloc: Global,
        term: Term,
        fuel: &mut u32,
        work: &mut u64,
    ) -> Result<Term, OutOfMemory>
        ensures chain { IfOk result
            (Chain (Rewrites (O.above self.now.order) self.now) term) }
        ensures fuel { OnOk result (fuel.new ≤ fuel.old) }
    {
        if *fuel == 0 {
            return Ok(term);
        }
        let Some(found) = self.rewriting(alloc, &term, work)? else {
            return Ok(term);
        };
        *fuel -= 1;
        self.normal_instance(alloc, &found.to, &found.entries, fuel, work)
    }
}
