//! `rewrite_at`: one rule whose guards are among the premises.

ghost use Rattle.std.specs.Prelude.{[], ◌∷◌, Ok, IfOk};
ghost use Rattle.std.specs.Result.{IfErr};
ghost use Rattle.spec_core.specs.WellSorted.{IsWellSorted};
ghost use Rattle.clause_core.specs.Rewriting.{rule_row};
ghost use Rattle.cond_rewrite.specs.RowAnswers.{RowAnswers, IsRefused};

use crate::children::rewritten;
use crate::guards::guards_are_among;
use crate::rules::rule_at;
use clause_core::{Clause, Place, RewriteError, tidied_within};
use matching::matches;
use spec_core::Spec;
use std::alloc::Global;

/// The clause with the term at the place rewritten by the rule with this number, which counts from
/// 1, tidied. Each guard's instance, equated to the constant that it wants, has to be among the
/// premises, as written or with its sides swapped. If it isn't, or the left side doesn't match, the
/// answer is `DoesNotFit`. `Limit` is that of clauses alone.
pub fn rewrite_at(
    alloc: Global,
    spec: &Spec,
    clause: &Clause,
    place: &Place,
    rule: u32,
) -> Result<Clause, RewriteError>
    requires fine { IsWellSorted spec.now }
    ensures made { IfOk result (λ made.
        RowAnswers (rule_row spec.now clause.now place.now rule) (Ok (made ∷ []))) }
    ensures refused { IfErr result
        (IsRefused (rule_row spec.now clause.now place.now rule)) }
{
    let Some(term) = clause.term_at(place) else {
        return Err(RewriteError::NoSuchPlace);
    };
    let Some(by_rule) = rule_at(spec, rule) else {
        return Err(RewriteError::NoSuchRule);
    };
    let Some(theta) = matches(alloc, &by_rule.left, term)? else {
        return Err(RewriteError::DoesNotFit);
    };
    let guards = by_rule.guards.as_slice();
    if !guards_are_among(alloc, &theta, guards, clause.premises.as_slice()) {
        return Err(RewriteError::DoesNotFit);
    }
    let Some(made) = rewritten(alloc, clause, place, &theta, &by_rule.right)? else {
        return Err(RewriteError::Limit);
    };
    let Some(child) = tidied_within(alloc, made)? else {
        return Err(RewriteError::Limit);
    };
    Ok(child)
}
