//! `cover`: a clause for each pattern, or why there is none.

ghost use Rattle.std.specs.Prelude.{MatchResult};
ghost use Rattle.clause_core.specs.Clauses.{ClauseIsSorted};
ghost use Rattle.clause_core.specs.Covering.{ArePatternsFor};
ghost use Rattle.test_sets.specs.Covers.{AreChildren, IsRefused};

use crate::answers::CoverError;
use crate::children::children;
use crate::patterns::uncovered;
use clause_core::Clause;
use spec_core::Signature;
use std::alloc::Global;
use term_core::{Term, VarId};

/// The clauses with each pattern for the variable, tidied, in the order of the patterns. The
/// variables of a pattern, which count from 0, stand for fresh ones.
///
/// `NotCovering` comes if and only if some value of the variable's sort is an instance of no
/// pattern, with the value that coverage_check names, and goes before `Limit`. `Limit` comes if and
/// only if a child passes a limit of clauses. Patterns cover by a coNP-hard question; those that
/// don't overlap are quick.
pub fn cover(
    alloc: Global,
    sig: &Signature,
    clause: &Clause,
    var: VarId,
    patterns: &[Term],
) -> Result<Vec<Clause>, CoverError>
    requires sorted { ClauseIsSorted sig.now clause.now }
    requires patterns { ArePatternsFor sig.now clause.now var.0 patterns.now }
    ensures { (are : ArePatternsFor sig.now clause.now var.0 patterns.now) → MatchResult result
        (λ made. AreChildren sig.now clause.now var.0 patterns.now are made.items)
        (IsRefused sig.now clause.now var.0 patterns.now are) }
{
    let sort = clause.ctx.as_slice()[var.0 as usize];
    if let Some(value) = uncovered(alloc, sig, sort, patterns)? {
        return Err(CoverError::NotCovering { value });
    }
    match children(alloc, sig, clause, var, sort, patterns)? {
        Some(made) => Ok(made),
        None => Err(CoverError::Limit),
    }
}
