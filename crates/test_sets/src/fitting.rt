//! Whether patterns may be put for a variable.

ghost use Rattle.std.specs.Prelude.{◌≡◌, ◌↔◌, ◌+◌, IfOk, IsTrue, MatchOption, length};
ghost use Rattle.term_core.specs.Tree.{trees_of};
ghost use Rattle.term_core.specs.Variables.{occurrences, occurrences_all};
ghost use Rattle.spec_core.specs.Sorts.{Sorted};
ghost use Rattle.clause_core.specs.Covering.{ArePatternsFor};
ghost use Rattle.test_sets.specs.Children.{IsSomePattern};
ghost use Rattle.test_sets.specs.Numbering.{IsNumbered, AreNumbered};

use crate::patterns::push_sorts;
use clause_core::Clause;
use spec_core::Signature;
use std::alloc::Global;
use term_core::{OutOfMemory, SortId, Term, TermNode, VarId, front};

/// Whether the clause has the variable, and the patterns are constructor terms of its sort, whose
/// variables are numbered from 0 on and occur once each: then [`crate::cover`] may be asked.
pub fn are_patterns_for(
    alloc: Global,
    sig: &Signature,
    clause: &Clause,
    var: VarId,
    patterns: &[Term],
) -> Result<bool, OutOfMemory>
    ensures { IfOk result (λ fit.
        IsTrue fit ↔ ArePatternsFor sig.now clause.now var.0 patterns.now) }
{
    let ctx = clause.ctx.as_slice();
    let Some(sort) = ctx.get(var.0 as usize) else {
        return Ok(false);
    };
    for pattern in patterns {
        if !is_pattern_of(alloc, sig, *sort, pattern)? {
            return Ok(false);
        }
    }
    Ok(true)
}

/// Whether the term is such a pattern of the sort.
fn is_pattern_of(
    alloc: Global,
    sig: &Signature,
    sort: SortId,
    pattern: &Term,
) -> Result<bool, OutOfMemory>
    ensures { IfOk result (λ is. IsTrue is ↔ IsSomePattern sig.now sort pattern.now) }
{
    let mut sorts = Vec::new(alloc);
    push_sorts(sig, sort, pattern, &mut sorts)?;
    Ok(has_sort(sig, &sorts, pattern, sort) && numbered(sig, pattern, 0).is_some())
}

/// Whether the term has the sort, where the variables have the sorts of `ctx`.
fn has_sort(sig: &Signature, ctx: &[SortId], term: &Term, sort: SortId) -> bool
    ensures { IsTrue result ↔ Sorted sig.now ctx.now term.now sort }
{
    match sig.sort_of(ctx, term) {
        Some(found) => found.0 == sort.0,
        None => false,
    }
}

/// The number after those of a constructor term's variables, if they are numbered from a
/// number on and occur once each.
#[cycle(numbered)]
fn numbered(sig: &Signature, pattern: &Term, from: usize) -> Option<usize>
    ensures { MatchOption result (IsNumbered sig.now from pattern.now → ⊥)
        (λ end. IsNumbered sig.now from pattern.now
        × (end ≡ from + length (occurrences pattern.now))) }
{
    match &pattern.node {
        TermNode::Var(var) => {
            if var.0 as usize != from {
                return None;
            }
            Some(from + 1)
        }
        TermNode::App(sym, args) => {
            if sym.0 >= sig.constructors() {
                return None;
            }
            all_numbered(sig, args.as_slice(), from)
        }
    }
}

/// The same of constructor terms in a row.
#[cycle(numbered)]
fn all_numbered(sig: &Signature, patterns: &[Term], from: usize) -> Option<usize>
    ensures { MatchOption result (AreNumbered sig.now from (trees_of patterns.now) → ⊥)
        (λ end. AreNumbered sig.now from (trees_of patterns.now)
        × (end ≡ from + length (occurrences_all (trees_of patterns.now)))) }
{
    match front(patterns) {
        None => Some(from),
        Some((first, others)) => {
            let next = numbered(sig, first, from)?;
            all_numbered(sig, others, next)
        }
    }
}
