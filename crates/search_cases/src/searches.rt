//! The search for a counterexample, beside a walk of the list of substitutions.
ghost use Rattle.std.specs.Prelude.{◌≡◌, ℕ, Some, slice_get};
ghost use Rattle.spec_core.specs.WellSorted.{IsWellSorted};

use crate::plain_values::PlainValues;
use crate::values::are_values;
use crate::walks::{Walk, walk_through};
use anyhow::{Context, Result, bail};
use ground_eval::{Verdict, verdict};
use refuter::{Search, search};
use spec_core::{Goal, Spec};
use std::alloc::Global;
use term_core::{Term, Terms};

/// The greatest depth, and the most tries.
const DEPTH: u32 = 5;

const TRIES: u32 = 40;

/// Of the second some verdicts are Spent.
const BUDGETS: [u32; 2] = [1000, 2];

/// A list of substitutions of a goal, and the verdict of each within a budget.
#[derive(Drop)]
struct Plain<'a> {
    name: &'a str,
    depth: u32,
    budget: u32,
    rows: &'a [Terms],
    verdicts: Vec<Verdict>,
}

/// Adds a line for each search of a goal of the specification that answers otherwise than the walk.
pub fn compare(alloc: Global, spec: &Spec, lines: &mut Vec<String>) -> Result<()>
    requires fine { IsWellSorted spec.now }
{
    let mut values = PlainValues::none(alloc, &spec.sig)?;
    for depth in 0..DEPTH + 1 {
        for goal in spec.goals.as_slice() {
            let rows = values.rows(alloc, goal.vars.as_slice())?;
            compare_goal(alloc, spec, goal, depth, &rows, lines)?;
        }
        values = values.deeper(alloc, &spec.sig)?;
    }
    Ok(())
}

/// Compares the searches of the goal at this depth, where its substitutions are these.
fn compare_goal(
    alloc: Global,
    spec: &Spec,
    goal: &Goal,
    depth: u32,
    rows: &[Terms],
    lines: &mut Vec<String>,
) -> Result<()>
    requires fine { IsWellSorted spec.now }
    requires listed { (k : ℕ) × (slice_get spec.now.goals k ≡ Some goal.now) }
{
    let name = std::str::from_utf8(goal.name.as_bytes())
        .ok()
        .context("a name isn't read")?;
    for budget in BUDGETS {
        let plain = Plain {
            name,
            depth,
            budget,
            rows,
            verdicts: verdicts(alloc, spec, goal, rows, budget)?,
        };
        compare_tries(alloc, spec, goal, &plain, lines)?;
    }
    Ok(())
}

/// The verdicts of the goal under the rows of values.
fn verdicts(
    alloc: Global,
    spec: &Spec,
    goal: &Goal,
    rows: &[Terms],
    budget: u32,
) -> Result<Vec<Verdict>>
    requires fine { IsWellSorted spec.now }
    requires listed { (k : ℕ) × (slice_get spec.now.goals k ≡ Some goal.now) }
{
    let mut verdicts = Vec::new(alloc);
    for row in rows {
        if !are_values(spec, goal.vars.as_slice(), row.as_slice()) {
            bail!("a list has other terms than values");
        }
        verdicts.push(verdict(alloc, spec, goal, row.as_slice(), budget)?)?;
    }
    Ok(verdicts)
}

/// Compares the searches with each number of tries.
fn compare_tries(
    alloc: Global,
    spec: &Spec,
    goal: &Goal,
    plain: &Plain,
    lines: &mut Vec<String>,
) -> Result<()>
    requires fine { IsWellSorted spec.now }
    requires listed { (k : ℕ) × (slice_get spec.now.goals k ≡ Some goal.now) }
{
    for tries in 0..TRIES + 1 {
        let found = search(alloc, spec, goal, plain.depth, tries, plain.budget)?;
        if !agrees(&found, &walk_through(&plain.verdicts, tries), plain.rows) {
            let (name, depth, budget) = (plain.name, plain.depth, plain.budget);
            lines.push(format!(in alloc; "{name} at {depth} with {tries} and {budget}")?)?;
        }
    }
    Ok(())
}

/// Whether the search answers what the walk finds, with the values of that row.
fn agrees(found: &Search, walk: &Walk, rows: &[Terms]) -> bool {
    match (found, walk) {
        (Search::Found { index, values }, Walk::Found(place)) => {
            *index == *place && is_row(values, rows.get(*place as usize))
        }
        (
            Search::NotFound {
                tried,
                skipped,
                cut,
            },
            Walk::NotFound {
                tried: walked,
                skipped: spent,
                cut: more,
            },
        ) => *tried == *walked && *skipped == *spent && *cut == *more,
        _ => false,
    }
}

fn is_row(values: &Terms, row: Option<&Terms>) -> bool {
    match row {
        Some(row) => are_same(values.as_slice(), row.as_slice()),
        None => false,
    }
}

fn are_same(found: &[Term], wanted: &[Term]) -> bool {
    found.len() == wanted.len() && found.iter().zip(wanted).all(|(one, other)| one.same(other))
}
