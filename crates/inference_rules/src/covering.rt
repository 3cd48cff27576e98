//! The step `cover`, by test_sets.

ghost use Rattle.clause_core.specs.Clauses.{ClauseIsSorted};
ghost use Rattle.clause_core.specs.Covering.{cover_row};
ghost use Rattle.inference_rules.specs.Answers.{AnsweredAlone};

use crate::making::{counted, with_relation};
use crate::nodes::StepError;
use clause_core::{Children, Clause, Relation, Why};
use spec_core::Spec;
use std::alloc::Global;
use term_core::{Term, VarId};
use test_sets::{are_patterns_for, cover};

/// `cover`: each pattern is put for the variable.
pub(crate) fn cover_variable(
    alloc: Global,
    spec: &Spec,
    here: &Clause,
    var: VarId,
    patterns: &[Term],
) -> Result<Children, StepError>
    requires { ClauseIsSorted spec.now.sig here.now }
    ensures { AnsweredAlone here.now (cover_row spec.now here.now var.0 patterns.now) result }
{
    let fit = are_patterns_for(alloc, &spec.sig, here, var, patterns)?;
    if !fit {
        return Err(StepError::Why(Why::Sort));
    }
    let made = cover(alloc, &spec.sig, here, var, patterns)?;
    let children = with_relation(alloc, Relation::Same, made)?;
    counted(0, Ok(children))
}
