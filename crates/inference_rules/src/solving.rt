//! The step `solve`.

ghost use Rattle.std.specs.Prelude.{◌↔◌, ℕ, IsTrue, MatchOption};
ghost use Rattle.term_core.specs.Tree.{Tree, trees_of};
ghost use Rattle.term_core.specs.Variables.{Occurs, OccursAny};
ghost use Rattle.spec_core.specs.WellSorted.{IsPattern, ArePatterns};
ghost use Rattle.clause_core.specs.Clauses.{ClauseIsSorted};
ghost use Rattle.clause_core.specs.Solving.{Solves, solve_row};
ghost use Rattle.inference_rules.specs.Answers.{AnsweredAlone};

use crate::closing::is_constructor;
use crate::making::related_alone;
use crate::nodes::StepError;
use clause_core::{Children, Clause, Relation, Why, instance, instance_within};
use spec_core::{Equation, Signature, Spec};
use std::alloc::Global;
use substitutions::Subst;
use term_core::{Term, TermNode, VarId};

/// `solve`: the premise equates a variable to a term without functions in which it doesn't occur.
/// The premise is left out, and the term is put for the variable everywhere. A child that passes
/// the limits isn't built.
pub(crate) fn solve(
    alloc: Global,
    spec: &Spec,
    clause: &Clause,
    number: u16,
) -> Result<Children, StepError>
    requires { ClauseIsSorted spec.now.sig clause.now }
    ensures { AnsweredAlone clause.now (solve_row spec.now clause.now number) result }
{
    let Some(premise) = clause.equation(false, number) else {
        return Err(StepError::Why(Why::NoSuchPlace));
    };
    let Some((var, term)) = solved_for(premise) else {
        return Err(StepError::Why(Why::DoesNotFit));
    };
    if !is_pattern_without(&spec.sig, var, term) {
        return Err(StepError::Why(Why::DoesNotFit));
    }
    let rest = clause.exchanged(alloc, false, number, Vec::new(alloc))?;
    let mut theta = Subst::new(alloc);
    theta.set(alloc, var, term.copy(alloc)?)?;
    if !instance_within(&rest, &theta) {
        return Err(StepError::Why(Why::Limit));
    }
    let child = instance(alloc, &rest, &theta, clause.ctx.as_slice())?;
    related_alone(alloc, Relation::Less, child)
}

/// The variable that the equation has as a side, and the other side. Of two variables it is the
/// left one.
fn solved_for(equation: &Equation) -> Option<(VarId, &Term)>
    ensures { MatchOption result
        ((n : ℕ) (t : Tree) → Solves equation.now.left equation.now.right n t → ⊥)
        (λ found. Solves equation.now.left equation.now.right found.0.0 found.1.now) }
{
    match (&equation.left.node, &equation.right.node) {
        (TermNode::Var(var), _) => Some((*var, &equation.right)),
        (_, TermNode::Var(var)) => Some((*var, &equation.left)),
        _ => None,
    }
}

/// Whether the term has no functions, and the variable doesn't occur in it.
#[cycle(pattern)]
fn is_pattern_without(sig: &Signature, var: VarId, term: &Term) -> bool
    ensures { IsTrue result ↔ (IsPattern sig.now term.now × (Occurs var.0 term.now → ⊥)) }
{
    match &term.node {
        TermNode::Var(other) => var != *other,
        TermNode::App(sym, args) => {
            is_constructor(sig, *sym) && are_patterns_without(sig, var, args.as_slice())
        }
    }
}

/// Whether each of the terms is such a one.
#[cycle(pattern)]
fn are_patterns_without(sig: &Signature, var: VarId, terms: &[Term]) -> bool
    ensures { IsTrue result ↔ (ArePatterns sig.now (trees_of terms.now)
        × (OccursAny var.0 (trees_of terms.now) → ⊥)) }
{
    for term in terms {
        if !is_pattern_without(sig, var, term) {
            return false;
        }
    }
    true
}
