//! The family of problems of Baader and Snyder, Handbook of Automated Reasoning, 2001, section 2,
//! whose unifiers have more than 2^n symbols.
use anyhow::{Result, bail};
use std::alloc::Global;
use term_core::{OutOfMemory, SymId, Term, Terms, VarId};
use unifier::unify;

/// The number n of the family.
const COUNT: u32 = 40;

const FIRST_Y: u32 = 100;

/// Whether the problem of this fault has no unifier. The fault shows last, at the variables that
/// have the largest terms.
pub fn is_refused(alloc: Global, fault: &str) -> Result<bool> {
    let (left, right) = match fault {
        "clash" => (constant(alloc, 0), constant(alloc, 1)),
        "cycle" => (Term::var(VarId(0)), Term::var(VarId(FIRST_Y + COUNT))),
        _ => bail!("no such fault: {fault}"),
    };
    let left = left_term(alloc, left)?;
    let right = right_term(alloc, right)?;
    Ok(unify(alloc, &left, &right)?.is_none())
}

fn constant(alloc: Global, symbol: u32) -> Term {
    Term::app(SymId(symbol), Terms::new(alloc))
}

/// f(v, v), where v is the variable.
fn double(alloc: Global, variable: u32) -> Result<Term, OutOfMemory> {
    let mut args = Terms::new(alloc);
    args.push(Term::var(VarId(variable)))?;
    args.push(Term::var(VarId(variable)))?;
    Ok(Term::app(SymId(2), args))
}

/// h(t, x1, .., xn, f(y0, y0), .., f(yn-1, yn-1), yn), where xi is the variable i and yi the
/// variable 100 + i.
fn left_term(alloc: Global, first: Term) -> Result<Term, OutOfMemory> {
    let mut args = Terms::new(alloc);
    args.push(first)?;
    for number in 0..COUNT {
        args.push(Term::var(VarId(1 + number)))?;
    }
    for number in 0..COUNT {
        args.push(double(alloc, FIRST_Y + number)?)?;
    }
    args.push(Term::var(VarId(FIRST_Y + COUNT)))?;
    Ok(Term::app(SymId(3), args))
}

/// h(t, f(x0, x0), .., f(xn-1, xn-1), y1, .., yn, xn).
fn right_term(alloc: Global, first: Term) -> Result<Term, OutOfMemory> {
    let mut args = Terms::new(alloc);
    args.push(first)?;
    for number in 0..COUNT {
        args.push(double(alloc, number)?)?;
    }
    for number in 0..COUNT {
        args.push(Term::var(VarId(FIRST_Y + 1 + number)))?;
    }
    args.push(Term::var(VarId(COUNT)))?;
    Ok(Term::app(SymId(3), args))
}
