//! The first group that isn't whole.

ghost use Rattle.std.specs.Prelude.{◌≡◌, ◌<◌, ◌^◌, ◌↔◌, IfOk, IsTrue, MatchOption, MatchBool};
ghost use Rattle.std.specs.Prelude.{length};
ghost use Rattle.std.specs.List.{Any};
ghost use Rattle.spec_core.specs.declared.records.Rule.{Rule};
ghost use Rattle.spec_core.specs.Findings.{First};
ghost use Rattle.spec_core.specs.Groups.{Whole, group, GroupsAreWhole};
ghost use Rattle.spec_core.specs.WellSorted.{IsWellSorted};
ghost use Rattle.coverage_check.specs.GroupTree.{rules_with};
ghost use Rattle.spec_admit.specs.Tests.{all_guards_tests};

use coverage_check::{Tree, tree, tree_decides_groups};
use spec_core::{Rule, Spec};
use std::alloc::Global;
use term_core::{OutOfMemory, Term};

/// The first rule whose group, which is of the rules with its left side, isn't whole. Each group is
/// looked at once, at its first rule.
pub(crate) fn incomplete_group(alloc: Global, spec: &Spec) -> Result<Option<u32>, OutOfMemory>
    requires { IsWellSorted spec.now }
    ensures { IfOk result (λ found. MatchOption found
        (GroupsAreWhole spec.now)
        (λ rule. First (all_guards_tests spec.now) rule)) }
{
    let rules = spec.rules.as_slice();
    for (place, rule) in rules.iter().enumerate() {
        if !some_has_left(&rules[..place], &rule.left) && !is_whole(alloc, spec, &rule.left)? {
            return Ok(Some(place as u32 + 1));
        }
    }
    Ok(None)
}

/// Whether some of the rules has this left side.
fn some_has_left(rules: &[Rule], left: &Term) -> bool
    ensures { IsTrue result ↔ Any (λ (r : Rule). r.left ≡ left.now) rules.now }
{
    rules.iter().any(|rule| rule.left.same(left))
}

/// Whether the guards of the rules with this left side form a complete decision tree.
fn is_whole(alloc: Global, spec: &Spec, left: &Term) -> Result<bool, OutOfMemory>
    requires { length spec.now.rules < 2 ^ 32 }
    ensures { IfOk result (λ whole. MatchBool whole
        (Whole (group left.now 0 spec.now.rules))
        (¬ (Whole (group left.now 0 spec.now.rules)))) }
{
    tree_decides_groups();
    let numbers = numbers_with(alloc, spec.rules.as_slice(), left)?;
    match tree(alloc, spec, &numbers)? {
        Tree::Whole => Ok(true),
        Tree::Gap => Ok(false),
    }
}

/// The numbers of the rules with this left side, in order.
fn numbers_with(alloc: Global, rules: &[Rule], left: &Term) -> Result<Vec<u32>, OutOfMemory>
    requires { length rules.now < 2 ^ 32 }
    ensures { IfOk result (λ made. made.items ≡ rules_with left.now rules.now) }
{
    let mut made = Vec::new(alloc);
    for (place, rule) in rules.iter().enumerate() {
        if rule.left.same(left) {
            made.push(place as u32 + 1)?;
        }
    }
    Ok(made)
}
