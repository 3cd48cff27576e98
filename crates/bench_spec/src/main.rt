//! Sorting, searches, evaluation, left sides and orderings, for the figures of `bench/run`.
//!
//! Uses case_input, spec_syntax, sort_check, ground_eval, refuter, overlap_check, coverage_check,
//! path_order and kbo_order. `search FILE DEPTH TRIES` searches for counterexamples of a file's
//! goals, and `eval FILE TERM BUDGET TIMES` evaluates a term. `MODE FILE TIMES` with the mode
//! `sort` sorts the specification, with `overlap` compares its left sides, with `cover` asks
//! whether they match all values, and with `order` compares its rules' sides in the path ordering.
//! `above SHAPE SIZE TIMES` compares terms without a file; the shape is `deep`, `paired`, `wide` or
//! `weights`.
//!
//! Proved: It is safe and ends.
//!
//! Tested: Its lines on a small file.
//!
//! Neither: Figures.
#![tactic(auto)]

mod towers;

ghost use Rattle.std.specs.Prelude.{ℕ, IfOk, List};
ghost use Rattle.spec_core.specs.Linear.{LeftSidesAreLinear};
ghost use Rattle.spec_core.specs.WellSorted.{IsWellSorted};
ghost use Rattle.sort_check.specs.Counted.{HasFewDeclarations};

use anyhow::{Context, Result, bail};
use case_input::specification;
use coverage_check::{Coverage, covers, rows_of};
use ground_eval::{Eval, eval};
use overlap_check::{Linear, Overlap, linear, overlap};
use path_order::Lpo;
use refuter::{Search, search};
use sort_check::{elaborate, elaborate_term};
use spec_core::{Rule, Spec};
use spec_grammar::RawSpec;
use spec_syntax::{read, read_term};
use std::alloc::Global;
use std::{env, fs};
use term_core::SymId;
use term_order::TermOrder;
use towers::compared_terms;

/// How many rule uses the evaluation of one side may cost in a search.
const STEPS: u32 = 1_000;

fn main(rt: HostRuntime) -> Result<()> {
    let words: Vec<String> = env::args(&rt)?.collect(rt.alloc())?;
    let done = done_by(&rt, words.as_slice())?;
    println!(rt; "done {done}")?;
    Ok(())
}

/// What the words ask for, done.
fn done_by(rt: &HostRuntime, words: &[String]) -> Result<u64> {
    match words {
        [_, mode, file, depth, tries] if mode.as_str() == "search" => {
            searched_in(rt, file.as_str(), number(depth)?, number(tries)?)
        }
        [_, mode, shape, size, times] if mode.as_str() == "above" => {
            compared_terms(rt.alloc(), shape.as_str(), number(size)?, number(times)?)
        }
        [_, mode, file, times] => repeated_in(rt, mode.as_str(), file.as_str(), number(times)?),
        [_, mode, file, term, budget, times] if mode.as_str() == "eval" => {
            evaluated_in(
                rt,
                file.as_str(),
                term.as_str(),
                number(budget)?,
                number(times)?,
            )
        }
        _ => bail!("the words are no mode of this program"),
    }
}

/// A search for counterexamples of a file's goals.
fn searched_in(rt: &HostRuntime, file: &str, depth: u32, tries: u32) -> Result<u64> {
    let alloc = rt.alloc();
    let bytes = fs::read(rt, file)?;
    let spec = specification(alloc, &bytes)?;
    searched(alloc, &spec, depth, tries)
}

/// What is done with a file's text this many times.
fn repeated_in(rt: &HostRuntime, mode: &str, file: &str, times: u32) -> Result<u64> {
    let bytes = fs::read(rt, file)?;
    repeated(rt.alloc(), mode, &bytes, times)
}

/// The evaluation of a term over a file's specification, this many times.
fn evaluated_in(rt: &HostRuntime, file: &str, term: &str, budget: u32, times: u32) -> Result<u64> {
    let alloc = rt.alloc();
    let bytes = fs::read(rt, file)?;
    let spec = specification(alloc, &bytes)?;
    evaluated(alloc, &spec, term.as_bytes(), budget, times)
}

/// What is done with a text this many times.
fn repeated(alloc: Global, mode: &str, bytes: &[u8], times: u32) -> Result<u64> {
    if mode == "sort" {
        return sorted(alloc, bytes, times);
    }
    let spec = specification(alloc, bytes)?;
    if mode == "overlap" {
        return compared(alloc, &spec, times);
    }
    if mode == "cover" {
        return covered(alloc, &spec, times);
    }
    if mode == "order" {
        return ordered(&spec, times);
    }
    bail!("the words are no mode of this program")
}

fn number(word: &String) -> Result<u32> {
    word.as_str().parse::<u32>().context("reading a number")
}

/// The raw specification of a text.
fn raw_specification(alloc: Global, bytes: &[u8]) -> Result<RawSpec>
    ensures few { IfOk result HasFewDeclarations }
{
    match read(alloc, bytes) {
        Ok(raw) => Ok(raw),
        Err(_) => bail!("the file isn't read"),
    }
}

/// How many rules and goals a text's specification has. It is sorted this many times.
fn sorted(alloc: Global, bytes: &[u8], times: u32) -> Result<u64> {
    let raw = raw_specification(alloc, bytes)?;
    let mut count: u64 = 0;
    for _time in 0..times {
        let Ok(spec) = elaborate(alloc, &raw) else {
            bail!("the file isn't sorted");
        };
        count = spec.rules.len().saturating_add(spec.goals.len()) as u64;
    }
    Ok(count)
}

/// How many substitutions of all goals were tried until each was refuted or left open.
fn searched(alloc: Global, spec: &Spec, depth: u32, tries: u32) -> Result<u64>
    requires { IsWellSorted spec.now }
{
    let mut total: u64 = 0;
    for goal in spec.goals.as_slice() {
        match search(alloc, spec, goal, depth, tries, STEPS) {
            Ok(Search::Found { index, .. }) => total = total.saturating_add(u64::from(index)),
            Ok(Search::NotFound { tried, .. }) => total = total.saturating_add(u64::from(tried)),
            Err(_) => bail!("out of memory"),
        }
    }
    Ok(total)
}

/// The cost of a term. It is evaluated this many times.
fn evaluated(alloc: Global, spec: &Spec, text: &[u8], budget: u32, times: u32) -> Result<u64>
    requires { IsWellSorted spec.now }
{
    let Ok(raw) = read_term(alloc, text) else {
        bail!("the term isn't read");
    };
    let Ok(term) = elaborate_term(alloc, &spec.sig, &raw) else {
        bail!("the term isn't sorted");
    };
    let mut cost: u64 = 0;
    for _time in 0..times {
        match eval(alloc, spec, &term, budget) {
            Ok(Eval::Value { steps, .. } | Eval::Large { steps }) => cost = u64::from(steps),
            Ok(Eval::Spent) => bail!("the budget is spent"),
            Err(_) => bail!("out of memory"),
        }
    }
    Ok(cost)
}

/// How many rules a specification has. Their left sides are compared this many times.
fn compared(alloc: Global, spec: &Spec, times: u32) -> Result<u64>
    requires { IsWellSorted spec.now }
{
    for _time in 0..times {
        match overlap(alloc, spec) {
            Ok(Overlap::Fine) => {}
            Ok(Overlap::Both { .. }) => bail!("two left sides overlap"),
            Err(_) => bail!("out of memory"),
        }
    }
    Ok(spec.rules.len() as u64)
}

/// How many symbols have left sides that match all values. This is computed this many times.
fn covered(alloc: Global, spec: &Spec, times: u32) -> Result<u64>
    requires { IsWellSorted spec.now }
{
    let Ok(Linear::Fine) = linear(alloc, spec) else {
        bail!("some left side isn't linear");
    };
    let mut count = 0;
    for _time in 0..times {
        count = covered_functions(alloc, spec)?;
    }
    Ok(count)
}

/// How many symbols have left sides that match all values.
fn covered_functions(alloc: Global, spec: &Spec) -> Result<u64>
    requires fine { IsWellSorted spec.now }
    requires linear { LeftSidesAreLinear spec.now }
{
    let mut count: u64 = 0;
    for number in 0..spec.sig.symbols() {
        let sorts = spec.sig.info(SymId(number)).args.as_slice();
        let Ok(rows) = rows_of(alloc, spec, SymId(number)) else {
            bail!("out of memory");
        };
        match covers(alloc, &spec.sig, &rows, sorts) {
            Ok(Coverage::Covered) => count = count.saturating_add(1),
            Ok(Coverage::Missing(_)) => continue,
            Err(_) => bail!("out of memory"),
        }
    }
    Ok(count)
}

/// How many rules have a left side above their right side. This is computed this many times. Each
/// turn goes through the rules from another place, so that no answer can be kept.
fn ordered(spec: &Spec, times: u32) -> Result<u64> {
    let rules = spec.rules.as_slice();
    let mut count: u64 = 0;
    for time in 0..times {
        let (before, behind) = rules.split_at((time as usize).min(rules.len()));
        count = ordered_rules(behind).saturating_add(ordered_rules(before));
    }
    Ok(count)
}

/// How many rules have a left side above their right side.
fn ordered_rules(rules: &[Rule]) -> u64 {
    let order = Lpo::by_number();
    let mut count: u64 = 0;
    for rule in rules {
        if order.greater(&rule.left, &rule.right) {
            count = count.saturating_add(1);
        }
    }
    count
}
