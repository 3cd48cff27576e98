//! Terms as in specifications, with `x0`, `x1` and so on for variables, and clauses of them.
use anyhow::{Context, Result, bail};
use clause_core::Clause;
use spec_core::{Equation, Signature};
use spec_grammar::RawTerm;
use spec_syntax::read_term;
use std::alloc::Global;
use term_core::{Seq, SortId, Term, Terms, VarId, front};

/// The term of this text.
pub fn term(alloc: Global, sig: &Signature, text: &str) -> Result<Term> {
    match read_term(alloc, text.as_bytes()) {
        Ok(raw) => numbered(alloc, sig, &raw),
        Err(fault) => bail!("a term isn't read: {fault}"),
    }
}

/// The term with symbols for names that the signature has, and variables for the others.
#[cycle(numbered)]
fn numbered(alloc: Global, sig: &Signature, raw: &RawTerm) -> Result<Term> {
    let name = raw.name.as_bytes();
    match sig.symbol(name) {
        Some(sym) => {
            let mut args = Terms::new(alloc);
            push_numbered(alloc, sig, raw.args.as_slice(), &mut args)?;
            Ok(Term::app(sym, args))
        }
        None => Ok(Term::var(variable(name)?)),
    }
}

/// Adds the terms in their order.
#[cycle(numbered)]
fn push_numbered(alloc: Global, sig: &Signature, raws: &[RawTerm], made: &mut Terms) -> Result<()> {
    let Some((raw, others)) = front(raws) else {
        return Ok(());
    };
    made.push(numbered(alloc, sig, raw)?)?;
    push_numbered(alloc, sig, others, made)
}

/// The variable of a name as `x12`.
fn variable(name: &[u8]) -> Result<VarId> {
    let Some((b'x', digits)) = name.split_first() else {
        bail!("a name is no symbol and no variable");
    };
    let digits = std::str::from_utf8(digits)
        .ok()
        .context("a number isn't read")?;
    Ok(VarId(digits.parse::<u32>().context("a number isn't read")?))
}

/// The terms of `[T;T]`.
pub fn terms(alloc: Global, sig: &Signature, text: &str) -> Result<Seq<Term>> {
    let mut made = Seq::new(alloc);
    let inner = text
        .strip_prefix('[')
        .and_then(|rest| rest.strip_suffix(']'))
        .context("a list has no brackets")?;
    if inner.is_empty() {
        return Ok(made);
    }
    for one in inner.split(';') {
        made.push(term(alloc, sig, one)?)?;
    }
    Ok(made)
}

/// The clause of a text as `12:le(x0,x1)=true=>x0=x1|x1=x0`: the sorts of its variables by their
/// numbers, the premises and the conclusions, where `-` stands for none.
pub fn clause(alloc: Global, sig: &Signature, text: &str) -> Result<Clause> {
    let (digits, equations) = text.split_once(':').context("a clause has no sorts")?;
    let (premises, conclusions) = match equations.split_once("=>") {
        Some(parts) => parts,
        None => ("-", equations),
    };
    let mut ctx = Seq::new(alloc);
    for digit in digits.as_bytes() {
        ctx.push(SortId(u32::from(digit.wrapping_sub(b'0'))))?;
    }
    Ok(Clause {
        ctx,
        premises: equations_of(alloc, sig, premises, '&')?,
        conclusions: equations_of(alloc, sig, conclusions, '|')?,
    })
}

fn equations_of(
    alloc: Global,
    sig: &Signature,
    text: &str,
    between: char,
) -> Result<Seq<Equation>> {
    let mut made = Seq::new(alloc);
    if text == "-" {
        return Ok(made);
    }
    for sides in text.split(between) {
        let (left, right) = sides.split_once('=').context("an equation has no sides")?;
        made.push(Equation {
            left: term(alloc, sig, left)?,
            right: term(alloc, sig, right)?,
        })?;
    }
    Ok(made)
}
