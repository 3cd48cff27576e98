//! The steps `rule` and `case`, by cond_rewrite.

ghost use Rattle.std.specs.Prelude.{◌≡◌, [], ◌∷◌, IfOk};
ghost use Rattle.spec_core.specs.WellSorted.{IsWellSorted};
ghost use Rattle.clause_core.specs.Rewriting.{rule_row};
ghost use Rattle.clause_core.specs.CaseSplitting.{case_row};
ghost use Rattle.inference_rules.specs.Answers.{AnsweredAlone};

use crate::making::{counted, with_relation};
use crate::nodes::StepError;
use clause_core::{Children, Clause, Place, Relation};
use cond_rewrite::{case_rewrite, rewrite_at};
use spec_core::Spec;
use std::alloc::Global;
use term_core::OutOfMemory;

/// `rule`: the rule with this number rewrites the term at the place, with its guards among the
/// premises.
pub(crate) fn rewrite(
    alloc: Global,
    spec: &Spec,
    here: &Clause,
    place: &Place,
    rule: u32,
) -> Result<Children, StepError>
    requires { IsWellSorted spec.now }
    ensures { AnsweredAlone here.now (rule_row spec.now here.now place.now rule) result }
{
    let made = rewrite_at(alloc, spec, here, place, rule)?;
    let children = with_relation(alloc, Relation::Less, only(alloc, made)?)?;
    counted(0, Ok(children))
}

/// `case`: each rule of the left side rewrites the term at the place, with its guards as further
/// premises.
pub(crate) fn rewrite_by_cases(
    alloc: Global,
    spec: &Spec,
    here: &Clause,
    place: &Place,
    rule: u32,
) -> Result<Children, StepError>
    requires { IsWellSorted spec.now }
    ensures { AnsweredAlone here.now (case_row spec.now here.now place.now rule) result }
{
    let made = case_rewrite(alloc, spec, here, place, rule)?;
    let children = with_relation(alloc, Relation::Less, made)?;
    counted(0, Ok(children))
}

/// The list of one clause.
fn only(alloc: Global, clause: Clause) -> Result<Vec<Clause>, OutOfMemory>
    ensures { IfOk result (λ made. made.items ≡ clause ∷ []) }
{
    let mut made = Vec::with_capacity(alloc, 1)?;
    made.push(clause)?;
    Ok(made)
}
