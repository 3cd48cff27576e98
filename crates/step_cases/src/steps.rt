//! The steps of proofs as they are written in reports, but with lists as `[T;T]` and variables as
//! `x0`.
use crate::terms::{term, terms};
use anyhow::{Context, Result, bail};
use clause_core::{Place, Step};
use spec_core::Signature;
use std::alloc::Global;
use term_core::{Name, Seq, Term, VarId};

/// The step of these words.
pub fn step(alloc: Global, sig: &Signature, words: &[&str]) -> Result<Step> {
    match words {
        [verb, word] => step_of_one(alloc, sig, verb, word),
        [verb, first, second] => step_of_two(alloc, sig, verb, first, second),
        ["context", at, equation, way] => {
            let place = place(alloc, at)?;
            Ok(Step::Context(place, premise(equation)?, is_left(way)?))
        }
        [verb, from, list, at, way] => {
            let terms = terms(alloc, sig, list)?;
            let place = place(alloc, at)?;
            replacing_step(alloc, verb, from, terms, place, is_left(way)?)
        }
        _ => bail!("this is no step"),
    }
}

/// The step of a verb and one word.
fn step_of_one(alloc: Global, sig: &Signature, verb: &str, word: &str) -> Result<Step> {
    if verb == "generalize" {
        return Ok(Step::Generalize(term(alloc, sig, word)?));
    }
    equation_step(verb, word)
}

/// The step of a verb and one equation.
fn equation_step(verb: &str, word: &str) -> Result<Step> {
    let (is_conclusion, number) = numbered(word)?;
    match (verb, is_conclusion) {
        ("trivial", true) => Ok(Step::Trivial(number)),
        ("absurd", false) => Ok(Step::Absurd(number)),
        ("decompose", _) => Ok(Step::Decompose(is_conclusion, number)),
        ("clash", true) => Ok(Step::Clash(number)),
        ("drop", _) => Ok(Step::Drop(is_conclusion, number)),
        ("solve", false) => Ok(Step::Solve(number)),
        _ => bail!("this is no step"),
    }
}

/// The step of a verb and two words.
fn step_of_two(
    alloc: Global,
    sig: &Signature,
    verb: &str,
    first: &str,
    second: &str,
) -> Result<Step> {
    match verb {
        "match" => Ok(Step::Match(conclusion(first)?, premise(second)?)),
        "rule" => Ok(Step::Rule(place(alloc, first)?, number(second)?)),
        "case" => Ok(Step::Case(place(alloc, first)?, number(second)?)),
        _ => list_step(alloc, verb, first, terms(alloc, sig, second)?),
    }
}

/// The step of a verb, a word and a list of terms.
fn list_step(alloc: Global, verb: &str, word: &str, list: Seq<Term>) -> Result<Step> {
    match verb {
        "subsume" => Ok(Step::Subsume(number(word)?, list)),
        "by-lemma" => Ok(Step::ByLemma(name(alloc, word)?, list)),
        "cover" => Ok(Step::Cover(variable(word)?, list)),
        _ => bail!("this is no step"),
    }
}

/// The step of a verb that replaces the term at a place by an instance.
fn replacing_step(
    alloc: Global,
    verb: &str,
    from: &str,
    list: Seq<Term>,
    at: Place,
    left: bool,
) -> Result<Step> {
    match verb {
        "hyp" => Ok(Step::Hyp(number(from)?, list, at, left)),
        "lemma" => Ok(Step::Lemma(name(alloc, from)?, list, at, left)),
        _ => bail!("this is no step"),
    }
}

/// Whether an equation is a conclusion, and its number.
fn numbered(word: &str) -> Result<(bool, u16)> {
    let (is_conclusion, digits) = match word.strip_prefix('c') {
        Some(digits) => (true, digits),
        None => (
            false,
            word.strip_prefix('p').context("this is no equation")?,
        ),
    };
    Ok((
        is_conclusion,
        digits.parse::<u16>().context("this is no number")?,
    ))
}

fn conclusion(word: &str) -> Result<u16> {
    match numbered(word)? {
        (true, number) => Ok(number),
        (false, _) => bail!("this is no conclusion"),
    }
}

fn premise(word: &str) -> Result<u16> {
    match numbered(word)? {
        (false, number) => Ok(number),
        (true, _) => bail!("this is no premise"),
    }
}

/// The place of a word as `c1.l.2.1`.
fn place(alloc: Global, word: &str) -> Result<Place> {
    let mut parts = word.split('.');
    let (conclusion, number) = numbered(parts.next().context("a place has no equation")?)?;
    let left = is_left(parts.next().context("a place has no side")?)?;
    let mut path = Seq::new(alloc);
    for part in parts {
        path.push(part.parse::<u8>().context("this is no argument")?)?;
    }
    Ok(Place {
        conclusion,
        number,
        left,
        path,
    })
}

fn is_left(word: &str) -> Result<bool> {
    match word {
        "l" => Ok(true),
        "r" => Ok(false),
        _ => bail!("this is no side"),
    }
}

fn variable(word: &str) -> Result<VarId> {
    let digits = word.strip_prefix('x').context("this is no variable")?;
    Ok(VarId(number(digits)?))
}

pub fn name(alloc: Global, word: &str) -> Result<Name> {
    Ok(Name::of(alloc, word.as_bytes())?)
}

pub fn number(word: &str) -> Result<u32> {
    word.parse::<u32>().context("this is no number")
}
