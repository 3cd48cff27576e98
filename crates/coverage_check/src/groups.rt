//! `tree`: whether guards form a complete decision tree.

ghost use Rattle.std.specs.Prelude.{◌≡◌, ◌↔◌, IfOk, IsTrue};
ghost use Rattle.std.specs.List.{AllByRecursion};
ghost use Rattle.term_core.specs.Tree.{Tree as TermTree};
ghost use Rattle.spec_core.specs.Groups.{BeginsWith};
ghost use Rattle.coverage_check.specs.GroupTree.{IsRuleNumber, numbered_guards, IsTree};
ghost use Rattle.coverage_check.specs.GuardLists.{lists_of, unnumbered, rests_wanting, AreWhole};

use crate::answers::Tree;
use spec_core::{Guard, Spec};
use std::alloc::Global;
use term_core::{OutOfMemory, Term, front};

/// Whether the guards of the rules with these numbers form a complete decision tree: there is one
/// list, which is empty; or all lists begin with one test, and the rests of those that want it
/// true form a tree, and so do the rests of those that want it false. The rules are numbered
/// from 1.
///
/// No rules, and two without guards, leave a gap. The cost is at most the number of guards times
/// the number of rules in comparisons of tests.
pub fn tree(alloc: Global, spec: &Spec, group: &[u32]) -> Result<Tree, OutOfMemory>
    requires { AllByRecursion (IsRuleNumber spec.now) group.now }
    ensures { IfOk result (IsTree (numbered_guards spec.now group.now)) }
{
    let rules = spec.rules.as_slice();
    let mut lists = Vec::with_capacity(alloc, group.len())?;
    for number in group {
        let rule = &rules[*number as usize - 1];
        lists.push(rule.guards.as_slice())?;
    }
    if are_whole(alloc, &lists)? {
        Ok(Tree::Whole)
    } else {
        Ok(Tree::Gap)
    }
}

/// Whether the guard lists form a complete decision tree.
fn are_whole(alloc: Global, lists: &[&[Guard]]) -> Result<bool, OutOfMemory>
    ensures { IfOk result (λ whole. IsTrue whole ↔ AreWhole (lists_of lists.now)) }
{
    match front(lists) {
        None => Ok(false),
        Some((list, others)) => match front(list) {
            None => Ok(others.is_empty()),
            Some((guard, _)) => {
                if !all_begin_with(lists, &guard.test) {
                    return Ok(false);
                }
                let wanting_true = rests(alloc, lists, true)?;
                if !are_whole(alloc, &wanting_true)? {
                    return Ok(false);
                }
                let wanting_false = rests(alloc, lists, false)?;
                are_whole(alloc, &wanting_false)
            }
        },
    }
}

/// Whether each list begins with the test.
fn all_begin_with(lists: &[&[Guard]], test: &Term) -> bool
    ensures { IsTrue result ↔ AllByRecursion (BeginsWith test.now) (lists_of lists.now) }
{
    for list in lists {
        match front(list) {
            Some((guard, _)) if guard.test.same(test) => {}
            _ => return false,
        }
    }
    true
}

/// Of the lists that begin by wanting this Boolean, the rests.
fn rests<'a>(
    alloc: Global,
    lists: &[&'a [Guard]],
    wanted: bool,
) -> Result<Vec<&'a [Guard]>, OutOfMemory>
    ensures { IfOk result (λ made.
        lists_of made.items ≡ rests_wanting wanted (lists_of lists.now)) }
{
    let mut made = Vec::new(alloc);
    for list in lists {
        if let Some((guard, rest)) = front(list) {
            if guard.wanted == wanted {
                made.push(rest)?;
            }
        }
    }
    Ok(made)
}
