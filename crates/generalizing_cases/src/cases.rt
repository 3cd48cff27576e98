//! What is asked in a case.

use crate::clauses::{are_same, clause, clauses};
use anyhow::{Result, bail};
use case_input::Case;
use generalized_clauses::{generalizations, ranked};
use spec_core::Spec;
use std::alloc::Global;

/// Cases of candidates.
pub struct Generalizing;

impl Case for Generalizing {
    /// Whether the case comes out as it is written. It is one of these, where each word but the
    /// first is the name of a goal, which stands for its clause:
    ///
    /// - `generalizations GOAL -> GOAL ..`
    /// - `ranked GOAL STUCK .. -> GOAL ..`
    fn holds(alloc: Global, spec: &Spec, words: &[&str]) -> Result<bool> {
        let Some(arrow) = words.iter().position(|word| *word == "->") else {
            bail!("a case has no answer");
        };
        let (asked, answer) = words.split_at(arrow);
        let Some((_, answer)) = answer.split_first() else {
            bail!("a case has no answer");
        };
        let wanted = clauses(alloc, spec, answer)?;
        let found = match asked {
            ["generalizations", goal] => {
                generalizations(alloc, &spec.sig, &clause(alloc, spec, goal)?)?
            }
            ["ranked", goal, stuck @ ..] => {
                let stuck = clauses(alloc, spec, stuck)?;
                ranked(alloc, spec, &clause(alloc, spec, goal)?, stuck)?
            }
            _ => bail!("this is no case"),
        };
        Ok(are_same(&found, &wanted))
    }
}
