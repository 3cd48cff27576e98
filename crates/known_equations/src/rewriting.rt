//! How a term is rewritten at its root: by a rule without guards, or by a known equation.

ghost use Rattle.std.specs.Prelude.{◌≡◌, IfOk, IfSome};
ghost use Rattle.substitutions.specs.Substitution.{apply};
ghost use Rattle.known_equations.specs.Found.{Becomes, IsUse, IsUseBy};

use crate::clauses::{KnownClause, only_equation};
use crate::store::Store;
use clause_core::{MOST_SYMBOLS, instance_size};
use fitting_lists::may_become;
use matching::matches;
use std::alloc::Global;
use substitutions::Subst;
use term_core::{OutOfMemory, SymId, Term, TermNode};
use term_order::TermOrder;

/// What a term becomes: the instance of `to` by the entries, by which the other side of a rule or
/// of an equation is the term.
#[derive(Drop)]
pub(crate) struct Rewriting {
    pub(crate) to: Term,
    pub(crate) entries: Subst,
}

impl<'a, O: TermOrder> Store<'a, O> {
    /// How the first rule that fits, or else the first equation, rewrites the term at its root.
    /// Terms that are too large for a clause in a proof are left as they are.
    pub(crate) fn rewriting(
        &self,
        alloc: Global,
        term: &Term,
        work: &mut u64,
    ) -> Result<Option<Rewriting>, OutOfMemory>
        ensures { IfOk result (λ found. IfSome found
            (IsUse (O.above self.now.order) self.now term.now)) }
    {
        let TermNode::App(sym, _) = &term.node else {
            return Ok(None);
        };
        if term.size(MOST_SYMBOLS + 1) > MOST_SYMBOLS {
            return Ok(None);
        }
        let found = self.by_rule(alloc, *sym, term, work)?;
        if found.is_some() {
            return Ok(found);
        }
        self.by_equation(alloc, *sym, term, work)
    }

    /// How the first rule of the function that fits rewrites the term, of those without guards.
    fn by_rule(
        &self,
        alloc: Global,
        function: SymId,
        term: &Term,
        work: &mut u64,
    ) -> Result<Option<Rewriting>, OutOfMemory>
        ensures { IfOk result (λ found. IfSome found
            (IsUse (O.above self.now.order) self.now term.now)) }
    {
        let rules = self.spec.rules.as_slice();
        for place in self.rules.rules_of(function) {
            let Some(rule) = rules.get(*place) else {
                continue;
            };
            if !rule.guards.is_empty() {
                continue;
            }
            let found = rewriting_by(alloc, &rule.left, &rule.right, term, work)?;
            if found.is_some() {
                return Ok(found);
            }
        }
        Ok(None)
    }

    /// How the first known equation with this symbol at the root of a side rewrites the term.
    fn by_equation(
        &self,
        alloc: Global,
        symbol: SymId,
        term: &Term,
        work: &mut u64,
    ) -> Result<Option<Rewriting>, OutOfMemory>
        ensures { IfOk result (λ found. IfSome found
            (IsUse (O.above self.now.order) self.now term.now)) }
    {
        for number in self.heads.numbers_of(symbol) {
            let Some(known) = self.known_at(*number) else {
                continue;
            };
            let found = by_clause(alloc, self.order, known, term, work)?;
            if found.is_some() {
                return Ok(found);
            }
        }
        Ok(None)
    }
}

/// How the clause rewrites the term from its left side, or else from its right one, of those that
/// may rewrite.
fn by_clause<O: TermOrder>(
    alloc: Global,
    order: &O,
    known: &KnownClause,
    term: &Term,
    work: &mut u64,
) -> Result<Option<Rewriting>, OutOfMemory>
    ensures { IfOk result (λ found. IfSome found
        (IsUseBy (O.above order.now) known.now.clause term.now)) }
{
    let Some(equation) = only_equation(&known.clause) else {
        return Ok(None);
    };
    if known.left.is_some() {
        let found = by_side(alloc, order, &equation.left, &equation.right, term, work)?;
        if found.is_some() {
            return Ok(found);
        }
    }
    if known.right.is_some() {
        return by_side(alloc, order, &equation.right, &equation.left, term, work);
    }
    Ok(None)
}

/// How the side rewrites the term to an instance of the other one, if the term is above it.
fn by_side<O: TermOrder>(
    alloc: Global,
    order: &O,
    side: &Term,
    other: &Term,
    term: &Term,
    work: &mut u64,
) -> Result<Option<Rewriting>, OutOfMemory>
    ensures becomes { IfOk result (λ found. IfSome found (Becomes side.now other.now term.now)) }
    ensures falls { IfOk result (λ found. IfSome found (λ made.
        O.above order.now term.now (apply made.entries.terms made.to))) }
{
    let Some(found) = rewriting_by(alloc, side, other, term, work)? else {
        return Ok(None);
    };
    let made = found.entries.apply(alloc, &found.to)?;
    if !order.greater(term, &made) {
        return Ok(None);
    }
    Ok(Some(found))
}

/// How `from` rewrites the term to an instance of `to`, if the term is an instance of `from` and
/// what it becomes isn't too large. If their symbols differ, nothing is copied.
fn rewriting_by(
    alloc: Global,
    from: &Term,
    to: &Term,
    term: &Term,
    work: &mut u64,
) -> Result<Option<Rewriting>, OutOfMemory>
    ensures { IfOk result (λ found. IfSome found (Becomes from.now to.now term.now)) }
{
    *work = work.saturating_add(1);
    if !may_become(from, term) {
        return Ok(None);
    }
    let Some(entries) = matches(alloc, from, term)? else {
        return Ok(None);
    };
    if instance_size(to, &entries, MOST_SYMBOLS + 1) > MOST_SYMBOLS {
        return Ok(None);
    }
    Ok(Some(Rewriting {
        to: to.copy(alloc)?,
        entries,
    }))
}
