//! Clauses that are made by numbers, for the limits of clauses.
use crate::signs::number;
use anyhow::{Result, bail};
use clause_core::Clause;
use spec_core::Equation;
use std::alloc::Global;
use term_core::{Seq, SymId, Term, Terms, VarId};

/// The clause of this kind: with this many premises and conclusions `u = u`, or with one premise
/// and one conclusion, whose sides have these sizes or depths from the left.
pub fn clause(alloc: Global, kind: &str, numbers: &[&str]) -> Result<Clause> {
    match numbers {
        [premises, conclusions] if kind == "equations" => {
            made(
                alloc,
                equations(alloc, number(premises)?)?,
                equations(alloc, number(conclusions)?)?,
            )
        }
        [first, second, third, fourth] => {
            made(
                alloc,
                one_equation(alloc, kind, first, second)?,
                one_equation(alloc, kind, third, fourth)?,
            )
        }
        _ => bail!("no such kind of clauses: {kind}"),
    }
}

fn made(alloc: Global, premises: Seq<Equation>, conclusions: Seq<Equation>) -> Result<Clause> {
    Ok(Clause {
        ctx: Seq::new(alloc),
        premises,
        conclusions,
    })
}

/// This many times `u = u`.
fn equations(alloc: Global, count: u32) -> Result<Seq<Equation>> {
    let mut made = Seq::new(alloc);
    for _ in 0..count {
        made.push(Equation {
            left: Term::var(VarId(0)),
            right: Term::var(VarId(0)),
        })?;
    }
    Ok(made)
}

/// The equation whose sides have these numbers.
fn one_equation(alloc: Global, kind: &str, left: &str, right: &str) -> Result<Seq<Equation>> {
    let mut made = Seq::new(alloc);
    made.push(Equation {
        left: side(alloc, kind, number(left)?)?,
        right: side(alloc, kind, number(right)?)?,
    })?;
    Ok(made)
}

/// The term of this size or depth, which is one at least.
fn side(alloc: Global, kind: &str, count: u32) -> Result<Term> {
    match kind {
        "sizes" => wide(alloc, count),
        "depths" => deep(alloc, count),
        _ => bail!("no such kind of clauses: {kind}"),
    }
}

/// f(u, .., u), with this many symbols and variables.
fn wide(alloc: Global, size: u32) -> Result<Term> {
    let mut args = Terms::new(alloc);
    for _ in 1..size {
        args.push(Term::var(VarId(0)))?;
    }
    Ok(Term::app(SymId(2), args))
}

/// f(.. f(u) ..), with this many levels.
fn deep(alloc: Global, depth: u32) -> Result<Term> {
    let mut made = Term::var(VarId(0));
    for _ in 1..depth {
        let mut args = Terms::new(alloc);
        args.push(made)?;
        made = Term::app(SymId(2), args);
    }
    Ok(made)
}
