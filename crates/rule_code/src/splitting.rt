//! A node's rules by the symbols at a place.

ghost use Rattle.std.specs.Prelude.{◌≡◌, ◌<◌, ◌^◌, ◌↔◌, false, Some, IfOk, IsTrue};
ghost use Rattle.rule_code.specs.Growing.{CanBeWanted, AreThose, NoneHas, AreParts};

use crate::decision_trees::{Split, TreeNode};
use crate::symbols::Path;
use spec_core::Rule;
use std::alloc::Global;
use term_core::OutOfMemory;

/// Which symbols are asked for: one, or those outside of the numbers from `low` to below `end`.
#[derive(Clone, Copy)]
enum Wanted {
    One(u32),
    Outside { low: u32, end: u32 },
}

impl Wanted {
    /// Whether a left side with this symbol at the place, or with nothing, can match.
    fn admits(self, there: Option<u32>) -> bool
        ensures { IsTrue result ↔ CanBeWanted self there }
    {
        let Some(sym) = there else {
            return true;
        };
        match self {
            Wanted::One(one) => sym == one,
            Wanted::Outside { low, end } => sym < low || end <= sym,
        }
    }
}

/// Splits the rules with these numbers at a place, and gives the nodes that follow, of which the
/// first will have the number `first`.
pub(crate) fn split_rules(
    alloc: Global,
    rules: &[Rule],
    numbers: &[usize],
    path: Path,
    first: usize,
) -> Result<(Split, Vec<TreeNode>), OutOfMemory>
    requires { first < 2 ^ 63 }
    ensures { IfOk result (λ r. AreParts rules.now first numbers.now r.0 r.1.items) }
{
    let (low, end) = span(rules, numbers, &path);
    let mut nodes = Vec::new(alloc);
    let others = those(alloc, rules, numbers, &path, Wanted::Outside { low, end })?;
    nodes.push(leaf(others))?;
    let mut cases = Vec::new(alloc);
    for sym in low..end {
        if !stands(rules, numbers, &path, sym) {
            cases.push(first)?;
            continue;
        }
        let some = those(alloc, rules, numbers, &path, Wanted::One(sym))?;
        cases.push(first + nodes.len())?;
        nodes.push(leaf(some))?;
    }
    Ok((
        Split {
            path,
            low,
            cases,
            other: first,
        },
        nodes,
    ))
}

/// A node at which no more rules are left out.
pub(crate) fn leaf(rules: Vec<usize>) -> TreeNode
    ensures rules { result.rules ≡ rules }
    ensures split { result.split ≡ None }
{
    TreeNode { rules, split: None }
}

/// From which number on and below which one the symbols are that are at the place.
fn span(rules: &[Rule], numbers: &[usize], path: &Path) -> (u32, u32) {
    let mut low = u32::MAX;
    let mut end = 0;
    for number in numbers {
        if let Some(sym) = path.symbol_of_rule(rules, *number) {
            low = low.min(sym);
            end = end.max(sym.saturating_add(1));
        }
    }
    (low, end)
}

/// Those of the numbers whose rules have nothing at the place, or what is wanted.
fn those(
    alloc: Global,
    rules: &[Rule],
    numbers: &[usize],
    path: &Path,
    wanted: Wanted,
) -> Result<Vec<usize>, OutOfMemory>
    ensures { IfOk result (λ r. AreThose rules.now numbers.now path.now wanted r.items) }
{
    let mut those = Vec::new(alloc);
    for number in numbers {
        let there = path.symbol_of_rule(rules, *number);
        if !wanted.admits(there) {
            continue;
        }
        those.push(*number)?;
    }
    Ok(those)
}

/// Whether a rule has the symbol at the place.
fn stands(rules: &[Rule], numbers: &[usize], path: &Path, sym: u32) -> bool
    ensures { result ≡ false → NoneHas rules.now numbers.now path.now sym }
{
    for number in numbers {
        if is_symbol(path.symbol_of_rule(rules, *number), sym) {
            return true;
        }
    }
    false
}

/// Whether this symbol is there.
fn is_symbol(there: Option<u32>, sym: u32) -> bool
    ensures { IsTrue result ↔ (there ≡ Some sym) }
{
    match there {
        None => false,
        Some(one) => one == sym,
    }
}
