//! What is asked in a case.

use accepted_spec::specification;
use anyhow::{Context, Result, bail};
use freer_search::{FreerBounds, freer};
use proof_search::Guided;
use spec_core::Spec;
use std::alloc::Global;
use term_core::Name;

/// The most bytes of a specification.
const MOST_BYTES: usize = 4_194_304;

/// What is asked: a goal, its lemmas with commas between them or `-`, and the bounds.
#[derive(Clone, Copy)]
struct Asked<'w> {
    goal: &'w str,
    lemmas: &'w str,
    bounds: FreerBounds,
}

/// Whether the case comes out as it is written. A case is
///
/// `case GOAL by LEMMAS within NODES COST -> WANTED`
///
/// where `WANTED` is `proved` if a proof is to be found, and `open` if not.
pub fn holds(alloc: Global, text: &[u8], words: &[&str]) -> Result<bool> {
    let [
        "case",
        goal,
        "by",
        lemmas,
        "within",
        nodes,
        cost,
        "->",
        wanted,
    ] = words
    else {
        bail!("this is no case");
    };
    let bounds = bounds(nodes, cost)?;
    let found = is_found(
        alloc,
        text,
        Asked {
            goal,
            lemmas,
            bounds,
        },
    )?;
    match *wanted {
        "proved" => Ok(found),
        "open" => Ok(!found),
        _ => bail!("this is no answer"),
    }
}

fn bounds(nodes: &str, cost: &str) -> Result<FreerBounds> {
    Ok(FreerBounds {
        nodes: nodes.parse::<u32>()?,
        cost: cost.parse::<u32>()?,
    })
}

/// Whether a proof is found in the specification of this text.
fn is_found(alloc: Global, text: &[u8], asked: Asked) -> Result<bool> {
    if text.len() > MOST_BYTES {
        bail!("the specification is too long");
    }
    let Ok(accepted) = specification(alloc, text) else {
        bail!("the specification is refused");
    };
    let spec = &accepted.admitted.spec;
    let lemmas = numbers_of(alloc, spec, asked.lemmas)?;
    let number = number_of(alloc, spec, asked.goal)?;
    if number as usize >= spec.goals.len() {
        bail!("there is no such goal");
    }
    let found = freer(
        alloc,
        &accepted.admitted,
        number,
        lemmas.as_slice(),
        asked.bounds,
    )?;
    Ok(matches!(found, Guided::Block(_)))
}

/// The numbers of the goals of these names.
fn numbers_of(alloc: Global, spec: &Spec, names: &str) -> Result<Vec<u32>> {
    let mut numbers = Vec::new(alloc);
    for name in names.split(',') {
        if name != "-" {
            numbers.push(number_of(alloc, spec, name)?)?;
        }
    }
    Ok(numbers)
}

/// The number of the goal of this name.
fn number_of(alloc: Global, spec: &Spec, name: &str) -> Result<u32> {
    let name = Name::of(alloc, name.as_bytes())?;
    let (number, _) = spec.goal_named(&name).context("there is no such goal")?;
    Ok(u32::try_from(number)?)
}
