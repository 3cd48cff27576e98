//! Terms in Polish notation, with one letter for each symbol and variable: `+sxy` is the sum of
//! `succ(x)` and `y`; and numbers.
use anyhow::{Context, Result};
use std::alloc::Global;
use term_core::{SymId, Term, Terms, VarId};

/// The term of these letters, of which `u` to `z` are the variables 0 to 5.
pub fn term(alloc: Global, letters: &str) -> Result<Term> {
    let mut terms = Vec::new(alloc);
    for letter in letters.as_bytes().iter().rev() {
        let made = match *letter {
            b'u'..=b'z' => Term::var(VarId(u32::from(*letter - b'u'))),
            other => application(alloc, other, &mut terms)?,
        };
        terms.push(made)?;
    }
    terms.pop().context("there are no letters")
}

/// The symbol's application to the terms at the end, of which the last is its first argument.
fn application(alloc: Global, letter: u8, terms: &mut Vec<Term>) -> Result<Term> {
    let (symbol, count) = symbol_of(letter);
    let mut args = Terms::new(alloc);
    for _ in 0..count {
        args.push(terms.pop().context("an argument is missing")?)?;
    }
    Ok(Term::app(SymId(symbol), args))
}

/// The number of a letter's symbol, which is its place in the precedence, and that of its
/// arguments. `A` is Ackermann's function and `-` the inverse; `1` and `k` are the symbols of `+`
/// and `f` with one argument, and the letters that aren't named are constants.
fn symbol_of(letter: u8) -> (u32, u32) {
    let count = match letter {
        b's' | b'-' | b'1' | b'g' | b'k' => 1,
        b'+' | b'*' | b'A' | b'f' | b'm' => 2,
        b'h' => 3,
        b'p' => 4,
        _ => 0,
    };
    let number = match letter {
        b'0' => 2,
        b's' => 3,
        b'+' | b'1' => 4,
        b'*' => 5,
        b'A' => 6,
        b'-' => 7,
        b'f' | b'k' => u32::from(b'f'),
        other => u32::from(other),
    };
    (number, count)
}

/// Whether the term is the one of these letters.
pub fn is(alloc: Global, found: &Term, letters: &str) -> Result<bool> {
    Ok(found.same(&term(alloc, letters)?))
}

pub fn number(word: &str) -> Result<u32> {
    word.parse::<u32>().context("this is no number")
}
