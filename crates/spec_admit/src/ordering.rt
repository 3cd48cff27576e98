//! The first rule that isn't ordered.

ghost use Rattle.std.specs.Prelude.{◌≡◌, ◌≤◌, ◌+◌, IfOk, MatchOption, MatchBool};
ghost use Rattle.spec_core.specs.Findings.{First};
ghost use Rattle.spec_core.specs.RuleSizes.{RuleIsWithin, RulesAreWithin};
ghost use Rattle.spec_core.specs.WellSorted.{IsWellSorted};
ghost use Rattle.term_core.specs.Tree.{tree_size};
ghost use Rattle.clause_core.specs.Admitted.{GuardIsOrdered, RuleIsOrdered, RulesAreOrdered};
ghost use Rattle.spec_admit.specs.Tests.{all_order_tests};
ghost use Rattle.spec_admit.specs.Parts.{IsUnorderedPart};

use spec_core::{Guard, Rule, Spec, boolean};
use std::alloc::Global;
use term_core::{OutOfMemory, Term};
use term_order::TermOrder;

/// The first rule whose left side isn't above one of its parts, and the number of that part: 0 for
/// the right side, k for the k-th guard.
pub(crate) fn unordered_rule<O: TermOrder>(
    alloc: Global,
    spec: &Spec,
    order: &O,
) -> Result<Option<(u32, u32)>, OutOfMemory>
    requires fine { IsWellSorted spec.now }
    requires small { RulesAreWithin 4294967295 spec.now }
    ensures { IfOk result (λ found. MatchOption found
        (RulesAreOrdered (O.above order.now) spec.now)
        (λ p. First (all_order_tests (O.above order.now) spec.now) p)) }
{
    for (place, rule) in spec.rules.as_slice().iter().enumerate() {
        if let Some(part) = unordered_part(alloc, rule, order)? {
            return Ok(Some((place as u32 + 1, part)));
        }
    }
    Ok(None)
}

/// The first part of the rule that the left side isn't above.
fn unordered_part<O: TermOrder>(
    alloc: Global,
    rule: &Rule,
    order: &O,
) -> Result<Option<u32>, OutOfMemory>
    requires { RuleIsWithin 4294967295 rule.now }
    ensures { IfOk result (λ found. MatchOption found
        (RuleIsOrdered (O.above order.now) rule.now)
        (IsUnorderedPart (O.above order.now) rule.now)) }
{
    if !order.greater(&rule.left, &rule.right) {
        return Ok(Some(0));
    }
    for (place, guard) in rule.guards.as_slice().iter().enumerate() {
        if !is_below(alloc, guard, &rule.left, order) {
            return Ok(Some(guard_number(place)?));
        }
    }
    Ok(None)
}

/// The number of the guard at this place. One that passes 32 bits is answered as want of memory:
/// this many guards take hundreds of gigabytes.
fn guard_number(place: usize) -> Result<u32, OutOfMemory>
    ensures { IfOk result (λ number. number ≡ place + 1) }
{
    match u32::try_from(place) {
        Ok(before) if before < u32::MAX => Ok(before + 1),
        _ => Err(OutOfMemory),
    }
}

/// Whether the term is above the guard's test and above the Boolean that it wants.
fn is_below<O: TermOrder>(alloc: Global, guard: &Guard, left: &Term, order: &O) -> bool
    requires left { tree_size left.now ≤ 4294967295 }
    requires test { tree_size guard.now.test ≤ 4294967295 }
    ensures { MatchBool result
        (GuardIsOrdered (O.above order.now) left.now guard.now)
        (¬ (GuardIsOrdered (O.above order.now) left.now guard.now)) }
{
    order.greater(left, &guard.test) && order.greater(left, &boolean(alloc, guard.wanted))
}
