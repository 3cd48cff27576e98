//! Nodes and goals that a step refers to, and their instances.

ghost use Rattle.std.specs.Prelude.{◌≡◌, ◌⊎◌, ◌↔◌, [], Some, IsTrue, IfOk, MatchOption};
ghost use Rattle.std.specs.Prelude.{MatchResult, Contains, slice_get};
ghost use Rattle.spec_core.specs.declared.records.Goal.{Goal as GoalOf};
ghost use Rattle.clause_core.specs.ClauseInstances.{clause_instance};
ghost use Rattle.clause_core.specs.Equations.{Among, IsIdentity};
ghost use Rattle.clause_core.specs.Limits.{IsWithin};
ghost use Rattle.clause_core.specs.Referred.{NodeAt, UsableGoal, AreTermsFor, PremisesAreThere};
ghost use Rattle.clause_core.specs.Referred.{instance_here as instance_of, with_instance};
ghost use Rattle.clause_core.specs.Rows.{makes};
ghost use Rattle.inference_rules.specs.Answers.{clauses_of};
ghost use Rattle.inference_rules.specs.Conditions.{RefusesWith};

use crate::nodes::{Node, StepError};
use crate::terms::{entries_of, have_sorts};
use clause_core::{Clause, Why, among, instance, instance_within, is_identity};
use spec_core::{Equation, Goal, Spec};
use std::alloc::Global;
use substitutions::Subst;
use term_core::{Name, OutOfMemory, Term};

/// The node with this number.
pub(crate) fn node_at(nodes: &[Node], number: u32) -> Option<&Node>
    ensures { MatchOption result (NodeAt (clauses_of nodes.now) number → ⊥)
        (λ node. (at : NodeAt (clauses_of nodes.now) number) × (at.clause ≡ node.now.clause)) }
{
    match nodes.get(number as usize) {
        Some(node) => Some(node),
        None => None,
    }
}

/// The goal of this name among those that may be used, by their numbers.
pub(crate) fn usable_goal<'a>(spec: &'a Spec, proved: &[u32], name: &Name) -> Option<&'a Goal>
    ensures { MatchOption result (UsableGoal spec.now (Contains proved.now) name.now → ⊥)
        (λ goal. (lemma : UsableGoal spec.now (Contains proved.now) name.now)
        × (lemma.goal ≡ goal.now)) }
{
    for number in proved {
        if let Some(goal) = named_goal(spec, *number, name) {
            return Some(goal);
        }
    }
    None
}

/// The goal with this number, if it has the name.
fn named_goal<'a>(spec: &'a Spec, number: u32, name: &Name) -> Option<&'a Goal>
    ensures { MatchOption result
        ((goal : GoalOf) → slice_get spec.now.goals number ≡ Some goal → goal.name ≡ name.now → ⊥)
        (λ goal. (slice_get spec.now.goals number ≡ Some goal.now) × (goal.now.name ≡ name.now)) }
{
    let goal = spec.goals.as_slice().get(number as usize)?;
    if goal.has_name(name) {
        return Some(goal);
    }
    None
}

/// The substitution of the terms for the variables of the clause, if they have their sorts over the
/// variables of the clause here and the instance is within the limits. The instance isn't built.
pub(crate) fn entries_here(
    alloc: Global,
    spec: &Spec,
    here: &Clause,
    clause: &Clause,
    terms: &[Term],
) -> Result<Subst, StepError>
    ensures { MatchResult result
        (λ theta. AreTermsFor spec.now here.now clause.now terms.now
        × IsWithin (clause_instance theta.terms here.now.ctx clause.now)
        × (clause_instance theta.terms here.now.ctx clause.now
        ≡ instance_of spec.now here.now clause.now terms.now))
        (λ error. RefusesWith
        (with_instance spec.now here.now clause.now terms.now (λ x. makes [] [])) error) }
{
    if !have_sorts(&spec.sig, here.ctx.as_slice(), terms, clause.ctx.as_slice()) {
        return Err(StepError::Why(Why::Sort));
    }
    let theta = entries_of(alloc, terms)?;
    if !instance_within(clause, &theta) {
        return Err(StepError::Why(Why::Limit));
    }
    Ok(theta)
}

/// The instance of the clause by the terms, over the variables of the clause here.
pub(crate) fn instance_here(
    alloc: Global,
    spec: &Spec,
    here: &Clause,
    clause: &Clause,
    terms: &[Term],
) -> Result<Clause, StepError>
    ensures { MatchResult result
        (λ made. AreTermsFor spec.now here.now clause.now terms.now × IsWithin made
        × (made ≡ instance_of spec.now here.now clause.now terms.now))
        (λ error. RefusesWith
        (with_instance spec.now here.now clause.now terms.now (λ x. makes [] [])) error) }
{
    let theta = entries_here(alloc, spec, here, clause, terms)?;
    Ok(instance(alloc, clause, &theta, here.ctx.as_slice())?)
}

/// Whether the instance of each premise of the clause is among the premises here or has identical
/// sides. They are built one at a time.
pub(crate) fn instances_are_there(
    alloc: Global,
    here: &Clause,
    clause: &Clause,
    theta: &Subst,
) -> Result<bool, OutOfMemory>
    ensures { IfOk result (λ there. IsTrue there ↔
        PremisesAreThere here.now (clause_instance theta.now.terms here.now.ctx clause.now)) }
{
    for premise in clause.premises.as_slice() {
        let instance = Equation {
            left: theta.apply(alloc, &premise.left)?,
            right: theta.apply(alloc, &premise.right)?,
        };
        if !premise_is_there(here, &instance) {
            return Ok(false);
        }
    }
    Ok(true)
}

/// Whether each premise of the instance is among the premises here or has identical sides.
pub(crate) fn premises_are_there(here: &Clause, instance: &Clause) -> bool
    ensures { IsTrue result ↔ PremisesAreThere here.now instance.now }
{
    instance
        .premises
        .iter()
        .all(|premise| premise_is_there(here, premise))
}

/// Whether the premise is among the premises here or has identical sides.
fn premise_is_there(here: &Clause, premise: &Equation) -> bool
    ensures { IsTrue result ↔ (Among premise.now here.now.premises ⊎ IsIdentity premise.now) }
{
    among(premise, here.premises.as_slice()) || is_identity(premise)
}
