//! `linear`: the first rule with a variable twice on its left side.

ghost use Rattle.std.specs.Prelude.{◌≤◌, ℕ, IfOk, MatchOption};
ghost use Rattle.term_core.specs.Tree.{trees_of};
ghost use Rattle.spec_core.specs.Linear.{IsLinear};
ghost use Rattle.term_core.specs.Variables.{Numbered};
ghost use Rattle.spec_core.specs.WellSorted.{IsWellSorted};
ghost use Rattle.overlap_check.specs.Repetition.{IsLinearity, IsLeastRepeated};
ghost use Rattle.overlap_check.specs.Occurrences.{IsTimes, AreTimes};

use crate::answers::Linear;
use spec_core::Spec;
use std::alloc::Global;
use term_core::{OutOfMemory, Term, TermNode, VarId, front};

/// The first rule with a variable that occurs twice on its left side. It walks each left side once
/// for each of its variables, of which there are at most 16, and takes no memory.
pub fn linear(_alloc: Global, spec: &Spec) -> Result<Linear, OutOfMemory>
    requires { IsWellSorted spec.now }
    ensures { IfOk result (IsLinearity spec.now) }
{
    for (place, rule) in spec.rules.as_slice().iter().enumerate() {
        if let Some(var) = least_repeated(&rule.left, rule.vars.len() as u32) {
            return Ok(Linear::Repeated {
                rule: place as u32 + 1,
                var,
            });
        }
    }
    Ok(Linear::Fine)
}

/// The least variable that occurs twice in the term, whose variables have numbers below `count`.
fn least_repeated(term: &Term, count: u32) -> Option<VarId>
    requires { (m : ℕ) × Numbered 0 term.now m × (m ≤ count) }
    ensures { MatchOption result (IsLinear term.now) (λ var. IsLeastRepeated term.now var.0) }
{
    for number in 0..count {
        if let Frequency::Twice = times(VarId(number), term) {
            return Some(VarId(number));
        }
    }
    None
}

/// How often a variable occurs.
#[derive(Clone, Copy, Debug, PartialEq, Eq)]
pub(crate) enum Frequency {
    Never,
    Once,
    /// Twice or more.
    Twice,
}

/// How often the variable occurs in the term.
#[cycle(times)]
pub(crate) fn times(var: VarId, term: &Term) -> Frequency
    ensures { IsTimes var.0 term.now result }
{
    match &term.node {
        TermNode::Var(other) => {
            if var == *other {
                Frequency::Once
            } else {
                Frequency::Never
            }
        }
        TermNode::App(_, args) => times_in_all(var, args.as_slice()),
    }
}

/// How often the variable occurs in the terms.
#[cycle(times)]
fn times_in_all(var: VarId, terms: &[Term]) -> Frequency
    ensures { AreTimes var.0 (trees_of terms.now) result }
{
    let Some((first, rest)) = front(terms) else {
        return Frequency::Never;
    };
    let here = times(var, first);
    let there = times_in_all(var, rest);
    match (here, there) {
        (Frequency::Never, _) => there,
        (_, Frequency::Never) => here,
        _ => Frequency::Twice,
    }
}
