//! Clauses as `12:fuv=a,u=v=>gu=b|a=c`: the sorts of `u`, `v` and so on, the premises and the
//! conclusions.
use crate::signs::term;
use anyhow::{Context, Result};
use clause_core::Clause;
use spec_core::Equation;
use std::alloc::Global;
use term_core::{Seq, SortId};

/// The sorts of the variables `u` to `z` if none are written.
const SORTS: &str = "111111";

/// The clause of these signs. Without `=>` it has no premises, and `-` stands for no equations.
pub fn clause(alloc: Global, signs: &str) -> Result<Clause> {
    let (digits, equations) = match signs.split_once(':') {
        Some(parts) => parts,
        None => (SORTS, signs),
    };
    let (premises, conclusions) = match equations.split_once("=>") {
        Some(parts) => parts,
        None => ("-", equations),
    };
    Ok(Clause {
        ctx: sorts_of(alloc, digits)?,
        premises: equations_of(alloc, premises, ',')?,
        conclusions: equations_of(alloc, conclusions, '|')?,
    })
}

/// The sorts of these digits, where `-` stands for none.
fn sorts_of(alloc: Global, digits: &str) -> Result<Seq<SortId>> {
    let mut made = Seq::new(alloc);
    for digit in digits.as_bytes() {
        if *digit != b'-' {
            made.push(SortId(u32::from(digit.wrapping_sub(b'0'))))?;
        }
    }
    Ok(made)
}

fn equations_of(alloc: Global, signs: &str, between: char) -> Result<Seq<Equation>> {
    let mut made = Seq::new(alloc);
    if signs == "-" {
        return Ok(made);
    }
    for sides in signs.split(between) {
        made.push(equation(alloc, sides)?)?;
    }
    Ok(made)
}

fn equation(alloc: Global, sides: &str) -> Result<Equation> {
    let (left, right) = sides.split_once('=').context("this is no equation")?;
    Ok(Equation {
        left: term(alloc, left)?,
        right: term(alloc, right)?,
    })
}

/// Whether the clause is the one of these signs, with its sorts.
pub fn is(alloc: Global, found: &Clause, signs: &str) -> Result<bool> {
    let wanted = clause(alloc, signs)?;
    Ok(
        same_sorts(found.ctx.as_slice(), wanted.ctx.as_slice())
            && same_equations(found.premises.as_slice(), wanted.premises.as_slice())
            && same_equations(found.conclusions.as_slice(), wanted.conclusions.as_slice()),
    )
}

fn same_sorts(found: &[SortId], wanted: &[SortId]) -> bool {
    found.len() == wanted.len() && found.iter().zip(wanted).all(|(one, other)| *one == *other)
}

fn same_equations(found: &[Equation], wanted: &[Equation]) -> bool {
    found.len() == wanted.len()
        && found.iter().zip(wanted).all(|(one, other)| one.left.same(&other.left)
            && one.right.same(&other.right))
}
