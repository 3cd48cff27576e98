//! Left sides as tests of slots.

ghost use Rattle.std.specs.Prelude.{◌≡◌, ◌<◌, ◌↔◌, ℕ, Some, IfOk, IsTrue, length, slice_get};
ghost use Rattle.term_core.specs.Tree.{var as variable};
ghost use Rattle.spec_core.specs.WellSorted.{RuleIsSorted};
ghost use Rattle.rule_code.specs.Homes.{IsHome, AreHomes, AreRepeats, IsLeftSide};

use crate::opening::open;
use crate::patterns::Patterns;
use crate::tests::{Repeat, Test};
use spec_core::{Rule, Signature};
use std::alloc::Global;
use term_core::{OutOfMemory, Term, TermNode};

/// A left side: the tests of a call's arguments and of the slots that they open, the slots that
/// hold one variable, the slot of each variable, and the number of all slots.
#[derive(Drop)]
pub struct LeftSide {
    pub(crate) tests: Vec<Test>,
    pub(crate) repeats: Vec<Repeat>,
    pub(crate) homes: Vec<usize>,
    pub width: usize,
}

impl LeftSide {
    pub(crate) fn of(alloc: Global, sig: &Signature, rule: &Rule) -> Result<LeftSide, OutOfMemory>
        requires { RuleIsSorted sig.now rule.now }
        ensures { IfOk result (IsLeftSide rule.now) }
    {
        match &rule.left.node {
            TermNode::Var(_) => unreachable!(),
            TermNode::App(_, args) => {
                let (tests, patterns) = open(alloc, args.as_slice())?;
                let homes = find_homes(alloc, &patterns, rule.vars.len())?;
                let repeats = find_repeats(alloc, &patterns, &homes)?;
                Ok(LeftSide {
                    tests,
                    repeats,
                    homes,
                    width: patterns.len(),
                })
            }
        }
    }
}

/// The first slot of each of this many variables.
fn find_homes(alloc: Global, patterns: &Patterns, count: usize) -> Result<Vec<usize>, OutOfMemory>
    requires { (n : ℕ) → n < count → (s : ℕ) × (slice_get patterns.now s ≡ Some (variable n)) }
    ensures { IfOk result (λ homes. AreHomes patterns.now count homes.items) }
{
    let mut homes = Vec::with_capacity(alloc, count)?;
    for number in 0..count {
        homes.push(find_home(patterns, number))?;
    }
    Ok(homes)
}

/// The first slot of a variable.
fn find_home(patterns: &Patterns, number: usize) -> usize
    requires { (s : ℕ) × (slice_get patterns.now s ≡ Some (variable number)) }
    ensures { IsHome patterns.now number result }
{
    for slot in 0..patterns.len() {
        if is_variable(patterns.at(slot), number) {
            return slot;
        }
    }
    unreachable!()
}

/// Whether the pattern is this variable.
fn is_variable(pattern: &Term, number: usize) -> bool
    ensures { IsTrue result ↔ (pattern.now ≡ variable number) }
{
    match &pattern.node {
        TermNode::Var(var) => var.0 as usize == number,
        TermNode::App(_, _) => false,
    }
}

/// The slots of variables after their first ones.
fn find_repeats(
    alloc: Global,
    patterns: &Patterns,
    homes: &[usize],
) -> Result<Vec<Repeat>, OutOfMemory>
    requires homes { AreHomes patterns.now (length homes.now) homes.now }
    requires variables { (s n : ℕ) → slice_get patterns.now s ≡ Some (variable n)
        → n < length homes.now }
    ensures { IfOk result (λ repeats. AreRepeats patterns.now homes.now repeats.items) }
{
    let mut repeats = Vec::new(alloc);
    for slot in 0..patterns.len() {
        match &patterns.at(slot).node {
            TermNode::App(_, _) => {}
            TermNode::Var(var) => {
                let first = homes[var.0 as usize];
                if first != slot {
                    repeats.push(Repeat { first, again: slot })?;
                }
            }
        }
    }
    Ok(repeats)
}
