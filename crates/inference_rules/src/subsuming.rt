//! The steps `subsume` and `by-lemma`.

ghost use Rattle.std.specs.Prelude.{◌↔◌, ℕ, List, [], IsTrue, IfOk, MatchResult, Contains};
ghost use Rattle.std.specs.List.{AllByRecursion};
ghost use Rattle.spec_core.specs.declared.records.Equation.{Equation as EquationOf};
ghost use Rattle.clause_core.specs.declared.clauses.Clause.{Clause as ClauseOf};
ghost use Rattle.clause_core.specs.Equations.{Among};
ghost use Rattle.clause_core.specs.Limits.{IsWithin};
ghost use Rattle.clause_core.specs.Subsuming.{Subsumes, subsumed_by, subsume_row, by_lemma_row};
ghost use Rattle.inference_rules.specs.Answers.{Answered, AnsweredAlone, clauses_of};
ghost use Rattle.inference_rules.specs.Conditions.{Makes, RefusesWith};

use crate::making::{closed, limited, reference};
use crate::nodes::{Scope, StepError};
use crate::referring::{instance_here, node_at, premises_are_there, usable_goal};
use clause_core::{Children, Clause, Why, among, of_goal};
use spec_core::{Equation, Spec};
use std::alloc::Global;
use term_core::{Name, Seq, Term};
use term_order::TermOrder;

/// `subsume`: an instance of the node with this number says no less than the clause here.
pub(crate) fn subsume<O: TermOrder>(
    scope: &Scope<O>,
    here: &Clause,
    number: u32,
    terms: &[Term],
) -> Result<Children, StepError>
    requires { IsWithin here.now }
    ensures { Answered (O.above scope.now.order.now) here.now []
        (subsume_row scope.now.spec.now here.now (clauses_of scope.now.nodes.now) number
        terms.now) result }
{
    let Some(node) = node_at(scope.nodes, number) else {
        return Err(StepError::Why(Why::NoSuchNode));
    };
    let alloc = scope.alloc;
    let instance = subsuming(alloc, scope.spec, here, &node.clause, terms)?;
    let mut refs = Seq::new(alloc);
    refs.push(reference(alloc, scope.order, here, number, &instance)?)?;
    limited(Seq::new(alloc), refs)
}

/// `by-lemma`: an instance of the goal of this name, of those that may be used, says no less than
/// the clause here.
pub(crate) fn by_lemma(
    alloc: Global,
    spec: &Spec,
    proved: &[u32],
    here: &Clause,
    name: &Name,
    terms: &[Term],
) -> Result<Children, StepError>
    ensures { AnsweredAlone here.now
        (by_lemma_row spec.now here.now (Contains proved.now) name.now terms.now) result }
{
    let Some(goal) = usable_goal(spec, proved, name) else {
        return Err(StepError::Why(Why::NotProvedBefore));
    };
    let lemma = of_goal(alloc, goal)?;
    let _instance = subsuming(alloc, spec, here, &lemma, terms)?;
    Ok(closed(alloc))
}

/// The instance of the clause by the terms, if it says no less than the clause here.
fn subsuming(
    alloc: Global,
    spec: &Spec,
    here: &Clause,
    clause: &Clause,
    terms: &[Term],
) -> Result<Clause, StepError>
    ensures within { IfOk result IsWithin }
    ensures row { (refs : ClauseOf → List (ℕ × ClauseOf)) → MatchResult result
        (λ made. Makes (subsumed_by spec.now here.now clause.now terms.now refs) [] (refs made))
        (λ error. RefusesWith (subsumed_by spec.now here.now clause.now terms.now refs) error) }
{
    let instance = instance_here(alloc, spec, here, clause, terms)?;
    if !subsumes(here, &instance) {
        return Err(StepError::Why(Why::DoesNotFit));
    }
    Ok(instance)
}

/// Whether the premises of the instance are there, and each conclusion of it is among the
/// conclusions here.
fn subsumes(here: &Clause, instance: &Clause) -> bool
    ensures { IsTrue result ↔ Subsumes here.now instance.now }
{
    premises_are_there(here, instance)
        && each_among(instance.conclusions.as_slice(), here.conclusions.as_slice())
}

/// Whether each of the equations is among the others.
fn each_among(equations: &[Equation], others: &[Equation]) -> bool
    ensures { IsTrue result ↔
        AllByRecursion (λ (e : EquationOf). Among e others.now) equations.now }
{
    equations.iter().all(|equation| among(equation, others))
}
