//! What each kind of step makes, in the numbers of the parent.

use crate::children::Child;
use crate::occurring::{General, occurrences};
use crate::replacing::{holding, replaced, rewritten};
use crate::settings::Setting;
use crate::simplifying::{covered, solved, taken_apart, without};
use clause_core::{Clause, Place, Step, of_goal, side, within};
use spec_core::{Rule, Spec};
use std::alloc::Global;
use term_core::{Name, OutOfMemory, VarId};

/// The occurrences of variables in the child before it is tidied, by the numbers that they have in
/// its parent, and the variables that the step brings after them. None where the step isn't known
/// to make the child.
pub(crate) fn occurrences_before(
    alloc: Global,
    setting: &Setting,
    child: &Child,
) -> Result<Option<Vec<VarId>>, OutOfMemory> {
    if let Step::Generalize(term) = child.step {
        let fresh = VarId(child.parent.ctx.len().min(u32::MAX as usize) as u32);
        let general = Some(General { term, fresh });
        return Ok(Some(occurrences(alloc, child.parent, general)?));
    }
    match before_tidying(alloc, setting, child)? {
        Some(made) if within(&made) => Ok(Some(occurrences(alloc, &made, None)?)),
        _ => Ok(None),
    }
}

/// The child before it is tidied. Steps that have no children make none, and nor does a
/// generalization, which exchanges terms.
fn before_tidying(
    alloc: Global,
    setting: &Setting,
    child: &Child,
) -> Result<Option<Clause>, OutOfMemory> {
    let here = child.parent;
    match child.step {
        Step::Rule(place, number) => by_rule(alloc, setting, here, place, *number, None),
        Step::Case(place, number) => {
            by_rule(alloc, setting, here, place, *number, Some(child.index))
        }
        Step::Decompose(conclusion, number) => {
            taken_apart(alloc, here, *conclusion, *number, child.index)
        }
        Step::Clash(number) => without(alloc, here, true, *number),
        Step::Drop(conclusion, number) => without(alloc, here, *conclusion, *number),
        Step::Solve(number) => solved(alloc, here, *number),
        Step::Cover(variable, patterns) => match patterns.as_slice().get(child.index) {
            Some(pattern) => covered(alloc, here, *variable, pattern),
            None => Ok(None),
        },
        Step::Context(place, number, left) => by_premise(alloc, here, place, *number, *left),
        Step::Hyp(node, terms, place, left) => match setting.nodes.get(*node as usize) {
            Some(node) => replaced(alloc, here, &node.clause, terms.as_slice(), place, *left),
            None => Ok(None),
        },
        Step::Lemma(name, terms, place, left) => match lemma(alloc, setting.spec, name)? {
            Some(lemma) => replaced(alloc, here, &lemma, terms.as_slice(), place, *left),
            None => Ok(None),
        },
        _ => Ok(None),
    }
}

/// The clause with the term at the place rewritten by the rule of this number, or by the one of
/// this index among the rules of its left side.
fn by_rule(
    alloc: Global,
    setting: &Setting,
    clause: &Clause,
    place: &Place,
    number: u32,
    index: Option<usize>,
) -> Result<Option<Clause>, OutOfMemory> {
    match rule_used(setting.spec.rules.as_slice(), number, index) {
        Some(rule) => rewritten(alloc, clause, place, rule),
        None => Ok(None),
    }
}

/// The rule of this number, which counts from 1, or the rule of this index among those that have
/// its left side.
fn rule_used(rules: &[Rule], number: u32, index: Option<usize>) -> Option<&Rule> {
    let rule = rules.get(number.checked_sub(1)? as usize)?;
    match index {
        None => Some(rule),
        Some(index) => rules
            .iter()
            .filter(|other| other.left.same(&rule.left))
            .nth(index),
    }
}

/// The clause with the other side of the premise for the term at the place.
fn by_premise(
    alloc: Global,
    clause: &Clause,
    place: &Place,
    number: u16,
    left: bool,
) -> Result<Option<Clause>, OutOfMemory> {
    match clause.equation(false, number) {
        Some(premise) => holding(alloc, clause, place, side(premise, !left).copy(alloc)?),
        None => Ok(None),
    }
}

/// The clause of the goal of this name, if there is one.
fn lemma(alloc: Global, spec: &Spec, name: &Name) -> Result<Option<Clause>, OutOfMemory> {
    match spec.goal_named(name) {
        Some((_, goal)) => Ok(Some(of_goal(alloc, goal)?)),
        None => Ok(None),
    }
}
