//! What is asked in a case.

use anyhow::{Context, Result, bail};
use case_input::Case;
use clause_core::{Clause, of_goal};
use known_equations::{Known, MOST_FUEL};
use path_order::Lpo;
use spec_core::{Equation, Spec};
use std::alloc::Global;
use term_core::Name;

/// Cases of known equations and clauses.
pub struct Knowing;

impl Case for Knowing {
    /// Whether the case comes out as it is written. It is one of these, where the goals `NAMES`,
    /// with commas between them, are known, or none if it is `-`:
    ///
    /// - `reducible GOAL by NAMES -> yes` or `no`, of the left side of the goal's first conclusion
    /// - `normal GOAL by NAMES -> yes`, if that side becomes the right one, or `no`
    /// - `redundant GOAL by NAMES -> yes` or `no`, of the goal's clause
    /// - `taken_back GOAL by NAMES -> yes` or `no`, whether the clause is redundant once the last
    ///   of the goals is taken back
    fn holds(alloc: Global, spec: &Spec, words: &[&str]) -> Result<bool> {
        let ["known", question, goal, "by", names, "->", answer] = words else {
            bail!("this is no case");
        };
        let order = Lpo::by_number();
        let mut known = known_goals(alloc, spec, &order, names)?;
        let clause = clause_of(alloc, spec, goal)?;
        let found = match *question {
            "reducible" => known.is_reducible(alloc, &first(&clause)?.left)?,
            "normal" => {
                let equation = first(&clause)?;
                let normal = known.normal(alloc, &equation.left, MOST_FUEL)?;
                normal.same(&equation.right)
            }
            "redundant" => known.is_redundant(alloc, &clause)?,
            "taken_back" => {
                known.truncate(known.len().saturating_sub(1));
                known.is_redundant(alloc, &clause)?
            }
            _ => bail!("this is no question"),
        };
        Ok(found == (*answer == "yes"))
    }
}

/// What is known where these goals are.
fn known_goals<'a>(
    alloc: Global,
    spec: &'a Spec,
    order: &'a Lpo,
    names: &str,
) -> Result<Known<'a, Lpo>> {
    let mut known = Known::new(alloc, spec, order)?;
    for name in names.split(',') {
        if name != "-" {
            known.add(alloc, &clause_of(alloc, spec, name)?)?;
        }
    }
    Ok(known)
}

/// The clause of the goal of this name.
fn clause_of(alloc: Global, spec: &Spec, name: &str) -> Result<Clause> {
    let name = Name::of(alloc, name.as_bytes())?;
    let (_, goal) = spec.goal_named(&name).context("there is no such goal")?;
    Ok(of_goal(alloc, goal)?)
}

/// The first conclusion.
fn first(clause: &Clause) -> Result<&Equation> {
    clause
        .conclusions
        .as_slice()
        .first()
        .context("the clause has no conclusion")
}
