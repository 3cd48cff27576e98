//! `unify`, by classes of one graph.

ghost use Rattle.std.specs.Prelude.{IfOk, IfSome};
ghost use Rattle.std.specs.Option.{IfNone};
ghost use Rattle.unifier.specs.Unification.{IsMostGeneral, IsRelevant, KeepsSorts, HaveNoUnifier};

mod answer;
mod closure;
mod graph;
mod occurs;

use answer::entries;
use closure::close;
use graph::add;
use occurs::is_acyclic;
use std::alloc::Global;
use substitutions::Subst;
use term_core::{OutOfMemory, Term};

/// A most general unifier (Robinson, 1965), with an entry for each variable that it changes.
///
/// The method is unification closure (Huet, 1976; Baader and Snyder, Handbook of Automated
/// Reasoning, 2001). The nodes of both terms are put into classes: the two terms are in one class,
/// and so are the arguments of two applications in one class, place by place. `None` comes if
/// the applications of a class have other symbols or other numbers of arguments (clash), and if
/// a class is below itself (occurs test).
///
/// Up to there the time is quadratic in the number of symbols of both terms, and no term is made.
/// The entries are trees, which may be exponentially larger than the terms. Their list has a place
/// for each number up to the greatest variable with an entry, however few variables there are.
pub fn unify(alloc: Global, a: &Term, b: &Term) -> Result<Option<Subst>, OutOfMemory>
    ensures general { IfOk result (λ found. IfSome found (λ s. IsMostGeneral a.now b.now s.terms)) }
    ensures relevant { IfOk result (λ found. IfSome found (λ s. IsRelevant a.now b.now s.terms)) }
    ensures sorted { IfOk result (λ found. IfSome found (λ s. KeepsSorts a.now b.now s.terms)) }
    ensures none { IfOk result (λ found. IfNone found (HaveNoUnifier a.now b.now)) }
{
    let mut graph = Vec::new(alloc);
    let first = add(alloc, &mut graph, a)?;
    let second = add(alloc, &mut graph, b)?;
    let Some(roots) = close(alloc, &graph, first, second)? else {
        return Ok(None);
    };
    if !is_acyclic(alloc, &graph, &roots)? {
        return Ok(None);
    }
    Ok(Some(entries(alloc, &graph, &roots)?))
}
