//! What is asked in a case.

use crate::nodes::Block;
use crate::steps::number;
use crate::{nodes, normal_cases};
use anyhow::{Result, bail};
use case_input::Case;
use spec_core::Spec;
use std::alloc::Global;

/// Cases of proof steps and of normal forms.
pub struct Stepping;

impl Case for Stepping {
    /// Whether the case comes out as it is written. It is one of these:
    ///
    /// - `GOAL STEP -> ANSWER`, at the goal's clause, if no goal may be used
    /// - `GOAL by NAME,NAME : STEP -> ANSWER`, if these goals may be used
    /// - `GOAL among COUNT : STEP -> ANSWER`, at the first of `COUNT` nodes, each with this clause
    /// - `normalize GOAL BUDGET -> TERM PLACE@RULE ..`, of the left side of the goal's first
    ///   conclusion, where `@RULE` is a use at the root, or `spent`
    fn holds(alloc: Global, spec: &Spec, words: &[&str]) -> Result<bool> {
        let Some(arrow) = words.iter().position(|word| *word == "->") else {
            bail!("a case has no answer");
        };
        let (asked, answer) = words.split_at(arrow);
        let Some((_, answer)) = answer.split_first() else {
            bail!("a case has no answer");
        };
        match asked {
            ["normalize", goal, budget] => normal_cases::holds(alloc, spec, goal, budget, answer),
            [goal, "by", lemmas, ":", step @ ..] => {
                nodes::holds(alloc, spec, &Block::by(goal, lemmas), step, answer)
            }
            [goal, "among", count, ":", step @ ..] => {
                let block = Block::among(goal, number(count)?);
                nodes::holds(alloc, spec, &block, step, answer)
            }
            [goal, step @ ..] => nodes::holds(alloc, spec, &Block::among(goal, 1), step, answer),
            [] => bail!("a case asks nothing"),
        }
    }
}
