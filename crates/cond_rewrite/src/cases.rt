//! `case_rewrite`: each rule of one left side, with its guards as further premises.

ghost use Rattle.std.specs.Prelude.{Ok, IfOk};
ghost use Rattle.std.specs.Result.{IfErr};
ghost use Rattle.spec_core.specs.WellSorted.{IsWellSorted};
ghost use Rattle.clause_core.specs.CaseSplitting.{case_row};
ghost use Rattle.clause_core.specs.Places.{TermAt};
ghost use Rattle.cond_rewrite.specs.RowAnswers.{RowAnswers, IsRefused};
ghost use Rattle.cond_rewrite.specs.Applied.{AreCasesWithin};

use crate::children::case_child;
use crate::rules::rule_at;
use clause_core::{Clause, Place, RewriteError};
use matching::matches;
use spec_core::{Rule, Spec};
use std::alloc::Global;
use substitutions::Subst;
use term_core::{OutOfMemory, Term};

/// The clauses with the term at the place rewritten by each rule whose left side is that of the
/// rule with this number, in the order of the rules, tidied. Numbers count from 1. Each clause has
/// the guards' instances, equated to the constants that they want, at the end of its premises.
/// `Limit` is that of clauses alone, and comes if any of them passes it.
pub fn case_rewrite(
    alloc: Global,
    spec: &Spec,
    clause: &Clause,
    place: &Place,
    rule: u32,
) -> Result<Vec<Clause>, RewriteError>
    requires fine { IsWellSorted spec.now }
    ensures made { IfOk result (λ made.
        RowAnswers (case_row spec.now clause.now place.now rule) (Ok made.items)) }
    ensures refused { IfErr result
        (IsRefused (case_row spec.now clause.now place.now rule)) }
{
    let Some(term) = clause.term_at(place) else {
        return Err(RewriteError::NoSuchPlace);
    };
    let Some(by_rule) = rule_at(spec, rule) else {
        return Err(RewriteError::NoSuchRule);
    };
    let Some(theta) = matches(alloc, &by_rule.left, term)? else {
        return Err(RewriteError::DoesNotFit);
    };
    let rules = spec.rules.as_slice();
    let Some(cases) = cases(alloc, clause, place, &theta, rules, &by_rule.left)? else {
        return Err(RewriteError::Limit);
    };
    Ok(cases)
}

/// The children by the rules of this left side, or None if one of them passes the limits of
/// clauses.
fn cases(
    alloc: Global,
    clause: &Clause,
    place: &Place,
    theta: &Subst,
    rules: &[Rule],
    left: &Term,
) -> Result<Option<Vec<Clause>>, OutOfMemory>
    requires { TermAt clause.now place.now }
    ensures { IfOk result (λ answer. (p : TermAt clause.now place.now) →
        AreCasesWithin p theta.now.terms rules.now left.now answer) }
{
    let mut made = Vec::new(alloc);
    for rule in rules {
        if rule.left.same(left) {
            let Some(child) = case_child(alloc, clause, place, theta, rule)? else {
                return Ok(None);
            };
            made.push(child)?;
        }
    }
    Ok(Some(made))
}
