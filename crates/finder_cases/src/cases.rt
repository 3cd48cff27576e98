//! What is asked in a case.

ghost use Rattle.spec_core.specs.WellSorted.{IsWellSorted};

use crate::finder::Finder;
use anyhow::{Context, Result, bail};
use case_input::Case;
use path_order::Lpo;
use spec_core::Spec;
use std::alloc::Global;
use term_core::Name;

/// Cases of finding lemmas.
pub struct Finding;

impl Case for Finding {
    /// Whether the case comes out as it is written. It is one of these, where terms and clauses are
    /// written without blanks, with `x0`, `x1` and so on for variables:
    ///
    /// - `case scope GOAL 0 -> SYMBOL ..`
    /// - `case terms GOAL SIZE -> TERM ..`, the representatives of this size
    /// - `case candidates GOAL SIZE -> CLAUSE ..`, those that terms of this size give
    /// - `case given GOAL SIZE -> yes`, or `no`: whether the goal is one of these
    /// - `case conditional GOAL SIZE -> yes`, or `no`: whether it is one with a premise, once this
    ///   size is done
    fn holds(alloc: Global, spec: &Spec, words: &[&str]) -> Result<bool> {
        let ["case", question, name, size, "->", answer @ ..] = words else {
            bail!("this is no case");
        };
        let size = size.parse::<u32>()?;
        let found = found(alloc, spec, name, question, size)?;
        Ok(are_same(&found, answer))
    }
}

/// What comes out for the goal of this name.
fn found(alloc: Global, spec: &Spec, name: &str, question: &str, size: u32) -> Result<Vec<String>>
    requires fine { IsWellSorted spec.now }
{
    let name = Name::of(alloc, name.as_bytes())?;
    let (_, goal) = spec.goal_named(&name).context("there is no such goal")?;
    let order = Lpo::by_number();
    let mut finder = Finder::new(alloc, spec, &order, goal)?;
    finder.answer(alloc, question, size)
}

fn are_same(found: &[String], wanted: &[&str]) -> bool {
    if found.len() != wanted.len() {
        return false;
    }
    for (text, word) in found.iter().zip(wanted) {
        if text.as_str() != *word {
            return false;
        }
    }
    true
}
