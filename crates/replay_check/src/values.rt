//! Whether a goal fails under values.

ghost use Rattle.std.specs.Prelude.{◌≡◌, ◌↔◌, ℕ, List, Some, IfOk, IsTrue, slice_get};
ghost use Rattle.term_core.specs.Tree.{trees_of};
ghost use Rattle.spec_core.specs.Sorts.{IsValue, IsBuilt, AreBuilt};
ghost use Rattle.spec_core.specs.WellSorted.{IsWellSorted};
ghost use Rattle.spec_core.specs.Overlap.{NoOverlap};
ghost use Rattle.spec_core.specs.Groups.{GroupsAreWhole};
ghost use Rattle.clause_core.specs.declared.reports.Claim.{Claim as ClaimOf};
ghost use Rattle.clause_core.specs.declared.reports.Outcome.TheVariants.{Refuted};
ghost use Rattle.acceptance.specs.Accepting.{AreNamedValues, HasFailed, IsShown, values_in};
ghost use Rattle.acceptance.specs.Refusals.{outcome_tests};
ghost use Rattle.replay_check.specs.Finds.{Finds};
ghost use Rattle.replay_check.specs.NamedValues.{IsNamedValue};

use crate::answers::Stop;
use clause_core::ReplayWhy;
use ground_eval::{Verdict, one_verdict, verdict};
use spec_admit::Admitted;
use spec_core::{Goal, Signature, Spec, VarInfo};
use std::alloc::Global;
use term_core::{Name, OutOfMemory, SortId, Term, TermNode};
use term_order::TermOrder;

/// Tests whether the goal fails under the values, within this many steps for each side. The first
/// line of the claim is given.
pub(crate) fn check_values<O: TermOrder>(
    alloc: Global,
    admitted: &Admitted<O>,
    goal: &Goal,
    values: &[(Name, Term)],
    steps: u32,
    line: u64,
) -> Result<(), Stop>
    requires { (k : ℕ) × (slice_get admitted.now.spec.goals k ≡ Some goal.now) }
    ensures { (before : List ClaimOf) (index : ℕ) →
        Finds (outcome_tests (O.above admitted.now.order) admitted.now.spec before line
        goal.now.name steps (Refuted index values.now))
        (λ done. IsShown (O.above admitted.now.order) admitted.now.spec steps before goal.now
        (Refuted index values.now)) result }
{
    if !are_named_values(&admitted.spec, goal, values) {
        return Err(Stop::Refused {
            line,
            why: ReplayWhy::Variables,
        });
    }
    if !has_failed(alloc, &admitted.spec, goal, values, steps)? {
        return Err(Stop::Refused {
            line,
            why: ReplayWhy::NotFalse,
        });
    }
    Ok(())
}

/// Whether there is a value for each variable of the goal, by its name and of its sort, in the
/// order of the goal.
fn are_named_values(spec: &Spec, goal: &Goal, values: &[(Name, Term)]) -> bool
    ensures { IsTrue result ↔ AreNamedValues spec.now goal.now values.now }
{
    let vars = goal.vars.as_slice();
    if vars.len() != values.len() {
        return false;
    }
    for (place, (name, value)) in values.iter().enumerate() {
        if !is_named_value(&spec.sig, &vars[place], name, value) {
            return false;
        }
    }
    true
}

/// Whether it is a value of the variable's sort, with the variable's name.
fn is_named_value(sig: &Signature, var: &VarInfo, name: &Name, value: &Term) -> bool
    ensures { IsTrue result ↔ IsNamedValue sig.now var.now (name.now, value.now) }
{
    name.as_bytes() == var.name.as_bytes() && is_value(sig, var.sort, value)
}

/// Whether the term is a value of the sort.
fn is_value(sig: &Signature, sort: SortId, term: &Term) -> bool
    ensures { IsTrue result ↔ IsValue sig.now sort term.now }
{
    match sig.sort_of(&[], term) {
        Some(found) => found.0 == sort.0 && is_built(sig, term),
        None => false,
    }
}

/// Whether the term has constructors alone.
#[cycle(built)]
fn is_built(sig: &Signature, term: &Term) -> bool
    ensures { IsTrue result ↔ IsBuilt sig.now term.now }
{
    match &term.node {
        TermNode::Var(_) => false,
        TermNode::App(sym, args) => sym.0 < sig.constructors() && are_built(sig, args.as_slice()),
    }
}

/// Whether each of the terms has constructors alone.
#[cycle(built)]
fn are_built(sig: &Signature, terms: &[Term]) -> bool
    ensures { IsTrue result ↔ AreBuilt sig.now (trees_of terms.now) }
{
    for term in terms {
        if !is_built(sig, term) {
            return false;
        }
    }
    true
}

/// Whether the goal's verdict under the values is Fails, within this many steps for each side.
fn has_failed(
    alloc: Global,
    spec: &Spec,
    goal: &Goal,
    values: &[(Name, Term)],
    steps: u32,
) -> Result<bool, OutOfMemory>
    requires fine { IsWellSorted spec.now }
    requires apart { NoOverlap spec.now }
    requires whole { GroupsAreWhole spec.now }
    requires listed { (k : ℕ) × (slice_get spec.now.goals k ≡ Some goal.now) }
    requires values { AreNamedValues spec.now goal.now values.now }
    ensures { IfOk result (λ failed. IsTrue failed ↔ HasFailed spec.now steps goal.now values.now) }
{
    one_verdict();
    let terms = terms_of(alloc, values)?;
    match verdict(alloc, spec, goal, terms.as_slice(), steps)? {
        Verdict::Fails => Ok(true),
        Verdict::Holds => Ok(false),
        Verdict::Spent => Ok(false),
    }
}

/// Copies of the values without their names.
fn terms_of(alloc: Global, values: &[(Name, Term)]) -> Result<Vec<Term>, OutOfMemory>
    ensures { IfOk result (λ terms. terms.items ≡ values_in values.now) }
{
    let mut terms = Vec::with_capacity(alloc, values.len())?;
    for (_, value) in values {
        terms.push(value.copy(alloc)?)?;
    }
    Ok(terms)
}
