//! Normal forms with their uses.
ghost use Rattle.spec_core.specs.WellSorted.{IsWellSorted};

use crate::nodes::number_of;
use crate::steps::number;
use crate::terms::term;
use anyhow::{Context, Result, bail};
use normalization::{Normal, normalize};
use spec_core::Spec;
use std::alloc::Global;
use term_core::Seq;

/// Whether the left side of the goal's first conclusion has this normal form by these uses, or too
/// many uses for the budget.
pub fn holds(alloc: Global, spec: &Spec, goal: &str, budget: &str, answer: &[&str]) -> Result<bool>
    requires fine { IsWellSorted spec.now }
{
    let number_of_goal = number_of(spec, goal)?;
    let goal = &spec.goals.as_slice()[number_of_goal as usize];
    let Some(conclusion) = goal.conclusions.as_slice().first() else {
        bail!("a goal has no conclusion");
    };
    match normalize(alloc, spec, &conclusion.left, number(budget)?)? {
        Normal::Spent => Ok(matches!(answer, ["spent"])),
        Normal::Done { term: found, uses } => {
            let Some((wanted, places)) = answer.split_first() else {
                bail!("a normal form is missing");
            };
            Ok(
                found.same(&term(alloc, &spec.sig, wanted)?)
                    && are_uses(alloc, uses.as_slice(), places)?,
            )
        }
    }
}

/// Whether these are the uses, each as `1.2@3`.
fn are_uses(alloc: Global, uses: &[(Seq<u8>, u32)], words: &[&str]) -> Result<bool> {
    if uses.len() != words.len() {
        return Ok(false);
    }
    for (found, word) in uses.iter().zip(words) {
        if !is_use(alloc, found, word)? {
            return Ok(false);
        }
    }
    Ok(true)
}

fn is_use(alloc: Global, found: &(Seq<u8>, u32), word: &str) -> Result<bool> {
    let (place, rule) = word.split_once('@').context("a use has no rule")?;
    let mut path: Vec<u8> = Vec::new(alloc);
    for part in place.split('.') {
        if !part.is_empty() {
            path.push(part.parse::<u8>().context("this is no argument")?)?;
        }
    }
    Ok(found.1 == number(rule)? && found.0.as_slice() == path.as_slice())
}
