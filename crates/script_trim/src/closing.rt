//! Whether a step is a closing step.

ghost use Rattle.std.specs.Prelude.{◌≡◌, ◌↔◌, ◌≤◌, ℕ, Some, IsTrue, IfOk, Contains, length};
ghost use Rattle.std.specs.Prelude.{slice_get};
ghost use Rattle.term_core.specs.Tree.{var as variable};
ghost use Rattle.spec_core.specs.declared.records.Goal.{Goal as GoalOf};
ghost use Rattle.spec_core.specs.WellSorted.{IsWellSorted};
ghost use Rattle.clause_core.specs.declared.clauses.Clause.{Clause as ClauseOf};
ghost use Rattle.clause_core.specs.Instances.{variables};
ghost use Rattle.clause_core.specs.Tidied.{goal_clause};
ghost use Rattle.inference_rules.specs.Answers.{clauses_of};
ghost use Rattle.script_trim.specs.Closing.{closing_steps, own_variables as variables_of_own};

use clause_core::{Clause, Step, of_goal};
use inference_rules::Node;
use spec_core::Spec;
use std::alloc::Global;
use term_core::{Name, OutOfMemory, Seq, Term, TermNode as Root, VarId};

/// Whether the step is one of the closing steps at a node with this clause.
pub(crate) fn is_closing(
    alloc: Global,
    spec: &Spec,
    nodes: &[Node],
    here: &Clause,
    step: &Step,
) -> Result<bool, OutOfMemory>
    requires { IsWellSorted spec.now }
    ensures { IfOk result (λ is. IsTrue is ↔
        Contains (closing_steps spec.now (clauses_of nodes.now) here.now) step.now) }
{
    match step {
        Step::Trivial(number) => Ok(is_number(*number, here.conclusions.len())),
        Step::Match(conclusion, premise) => Ok(are_numbers(here, *conclusion, *premise)),
        Step::Absurd(number) => Ok(is_number(*number, here.premises.len())),
        Step::Subsume(number, terms) => Ok(is_whole_node(nodes, *number, terms.as_slice())),
        Step::ByLemma(name, terms) => is_whole_goal(alloc, spec, name, terms.as_slice()),
        _ => Ok(false),
    }
}

/// Whether the clause has a conclusion and a premise of these numbers.
fn are_numbers(clause: &Clause, conclusion: u16, premise: u16) -> bool
    ensures { IsTrue result ↔
        (((1 ≤ conclusion) × (conclusion ≤ length clause.now.conclusions))
        × ((1 ≤ premise) × (premise ≤ length clause.now.premises))) }
{
    is_number(conclusion, clause.conclusions.len()) && is_number(premise, clause.premises.len())
}

/// Whether this many equations have one with this number, which counts from 1.
fn is_number(number: u16, count: usize) -> bool
    ensures { IsTrue result ↔ ((1 ≤ number) × (number ≤ count)) }
{
    number >= 1 && usize::from(number) <= count
}

/// Whether the terms are the variables of the node with this number.
fn is_whole_node(nodes: &[Node], number: u32, terms: &[Term]) -> bool
    ensures { IsTrue result ↔ ((c : ClauseOf)
        × (slice_get (clauses_of nodes.now) number ≡ Some c) × (terms.now ≡ variables_of_own c)) }
{
    match nodes.get(number as usize) {
        Some(node) => are_variables(terms, node.clause.ctx.len()),
        None => false,
    }
}

/// Whether the terms are the variables of the goal of this name.
fn is_whole_goal(
    alloc: Global,
    spec: &Spec,
    name: &Name,
    terms: &[Term],
) -> Result<bool, OutOfMemory>
    requires { IsWellSorted spec.now }
    ensures { IfOk result (λ is. IsTrue is ↔ ((k : ℕ) × (goal : GoalOf)
        × (slice_get spec.now.goals k ≡ Some goal) × (goal.name ≡ name.now)
        × (terms.now ≡ variables_of_own (goal_clause goal)))) }
{
    match spec.goal_named(name) {
        Some((_number, goal)) => {
            let clause = of_goal(alloc, goal)?;
            Ok(are_variables(terms, clause.ctx.len()))
        }
        None => Ok(false),
    }
}

/// Whether the terms are this many variables, in their order.
fn are_variables(terms: &[Term], count: usize) -> bool
    ensures { IsTrue result ↔ (terms.now ≡ variables 0 count) }
{
    if terms.len() != count {
        return false;
    }
    for (number, term) in terms.iter().enumerate() {
        if !is_variable(term, number) {
            return false;
        }
    }
    true
}

/// The variables of the clause, as a list of terms for them. More of them than there are numbers
/// count as want of memory: none comes.
pub(crate) fn own_variables(alloc: Global, clause: &Clause) -> Result<Seq<Term>, OutOfMemory>
    ensures { IfOk result (λ made. made ≡ variables_of_own clause.now) }
{
    let count = clause.ctx.len();
    if count > u32::MAX as usize {
        return Err(OutOfMemory);
    }
    let mut made = Vec::with_capacity(alloc, count)?;
    for number in 0..count {
        made.push(Term::var(VarId(number as u32)))?;
    }
    Ok(Seq::from_vec(made))
}

/// Whether the term is the variable with this number.
fn is_variable(term: &Term, number: usize) -> bool
    ensures { IsTrue result ↔ (term.now ≡ variable number) }
{
    match &term.node {
        Root::Var(var) => var.0 as usize == number,
        Root::App(_, _) => false,
    }
}
