//! The place at which the most rules have a symbol.

use crate::symbols::Path;
use spec_core::Rule;
use std::alloc::Global;
use term_core::{OutOfMemory, Term, TermNode, front};

/// The first of the places at which the most rules have a symbol, among those of the first rule at
/// which not all have the same one.
pub(crate) fn choose(
    alloc: Global,
    rules: &[Rule],
    numbers: &[usize],
) -> Result<Option<Path>, OutOfMemory> {
    let Some((first, _)) = front(numbers) else {
        return Ok(None);
    };
    let Some(rule) = rules.get(*first) else {
        return Ok(None);
    };
    let mut best = None;
    let mut most = 0;
    for path in paths_of(alloc, rule)? {
        let count = count_apart(rules, numbers, &path);
        if count > most {
            most = count;
            best = Some(path);
        }
    }
    Ok(best)
}

/// How many rules have a symbol at the place, or 0 if all have the same one.
fn count_apart(rules: &[Rule], numbers: &[usize], path: &Path) -> usize {
    let mut count: usize = 0;
    let mut apart = false;
    let mut one = None;
    for number in numbers {
        let there = path.symbol_of_rule(rules, *number);
        if there.is_none() {
            continue;
        }
        count = count.saturating_add(1);
        if count == 1 {
            one = there;
        }
        apart = apart || there != one;
    }
    if apart { count } else { 0 }
}

/// The places of a left side at which there are symbols, each one before those below it.
fn paths_of(alloc: Global, rule: &Rule) -> Result<Vec<Path>, OutOfMemory> {
    let mut paths = Vec::new(alloc);
    let mut way = Vec::new(alloc);
    match &rule.left.node {
        TermNode::Var(_) => {}
        TermNode::App(_, args) => add_paths(alloc, args.as_slice(), 0, &mut way, &mut paths)?,
    }
    Ok(paths)
}

/// Adds the places of the terms, of which the first is this argument of what one reaches by `way`.
fn add_paths(
    alloc: Global,
    terms: &[Term],
    number: usize,
    way: &mut Vec<usize>,
    paths: &mut Vec<Path>,
) -> Result<(), OutOfMemory> {
    let Some((term, rest)) = front(terms) else {
        return Ok(());
    };
    match &term.node {
        TermNode::Var(_) => {}
        TermNode::App(_, args) => {
            way.push(number)?;
            add_path(alloc, way, paths)?;
            add_paths(alloc, args.as_slice(), 0, way, paths)?;
            way.pop();
        }
    }
    add_paths(alloc, rest, number.saturating_add(1), way, paths)
}

/// Adds the place that one reaches by these numbers of arguments.
fn add_path(alloc: Global, way: &[usize], paths: &mut Vec<Path>) -> Result<(), OutOfMemory> {
    match front(way) {
        None => Ok(()),
        Some((argument, below)) => {
            paths.push(Path {
                argument: *argument,
                below: below.to_vec(alloc)?,
            })?;
            Ok(())
        }
    }
}
