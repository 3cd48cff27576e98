//! What is asked of terms in a case.

use crate::levels::order_by_levels;
use crate::signs::{is, number, term};
use crate::{clause_cases, families};
use anyhow::{Result, bail};
use matching::matches;
use path_order::Lpo;
use std::alloc::Global;
use substitutions::Subst;
use term_core::{ReplaceError, SymId, Term, Terms, VarId};
use term_order::TermOrder;
use unifier::{ShiftError, shift, unify};

/// Whether the case comes out as it is written. In place of an answer `none` says that there is
/// none, and `-` stands for the empty path and for no entries.
pub fn holds(alloc: Global, words: &[&str]) -> Result<bool> {
    match words {
        ["size", letters, size, depth, variables] => {
            is_measured(alloc, letters, (number(size)?, number(depth)?), variables)
        }
        ["copy", letters] => is_copied(alloc, letters),
        ["place", whole, path, new, found, made] => {
            is_exchanged(alloc, (whole, path, new), found, made)
        }
        ["compose", first, then, letters, wanted] => {
            is_composed(alloc, first, then, letters, wanted)
        }
        ["match", pattern, letters, entries] => is_matched(alloc, pattern, letters, entries),
        ["unify", left, right, wanted] => is_unified(alloc, left, right, wanted),
        ["family", fault] => families::is_refused(alloc, fault),
        ["shift", letters, by, wanted] => is_shifted(alloc, letters, number(by)?, wanted),
        ["order", one, other, relation] => {
            Ok(relation_of(alloc, &Lpo::by_number(), one, other)? == *relation)
        }
        ["levels", one, other, relation] => {
            Ok(relation_of(alloc, &order_by_levels(alloc)?, one, other)? == *relation)
        }
        _ => clause_cases::holds(alloc, words),
    }
}

/// The number of the variable of this letter.
fn variable(letter: u8) -> VarId {
    VarId(u32::from(letter.wrapping_sub(b'u')))
}

/// Whether a copy of the term has this many symbols and variables, this many of them on its longest
/// way down, and these variables by first occurrence.
fn is_measured(alloc: Global, letters: &str, sizes: (u32, u32), variables: &str) -> Result<bool> {
    let copy = term(alloc, letters)?.copy(alloc)?;
    if !is(alloc, &copy, letters)? || (copy.size(99), copy.depth(99)) != sizes {
        return Ok(false);
    }
    let found = copy.vars(alloc)?;
    let wanted = if variables == "-" { "" } else { variables };
    Ok(
        found.len() == wanted.len()
            && found
                .as_slice()
                .iter()
                .zip(wanted.as_bytes())
                .all(|(found, letter)| *found == variable(*letter)),
    )
}

/// Whether the terms of these letters, with commas between them, are copied in their order.
fn is_copied(alloc: Global, letters: &str) -> Result<bool> {
    let mut terms = Terms::new(alloc);
    for letters in letters.split(',') {
        terms.push(term(alloc, letters)?)?;
    }
    let copy = Term::app(SymId(2), terms.copy(alloc)?);
    Ok(copy.same(&Term::app(SymId(2), terms)))
}

/// Whether this is at the path, and that is what becomes of the term with another one there.
fn is_exchanged(
    alloc: Global,
    (whole, path, new): (&str, &str, &str),
    found: &str,
    made: &str,
) -> Result<bool> {
    let whole = term(alloc, whole)?;
    let places = places_of(alloc, path)?;
    let new = term(alloc, new)?;
    Ok(stands(alloc, &whole, &places, found)? && becomes(alloc, &whole, &places, new, made)?)
}

/// The numbers of the path's digits.
fn places_of(alloc: Global, path: &str) -> Result<Vec<u8>> {
    let mut places = Vec::new(alloc);
    for digit in path.as_bytes() {
        if *digit != b'-' {
            places.push(digit.wrapping_sub(b'0'))?;
        }
    }
    Ok(places)
}

/// Whether this is at the places of the term.
fn stands(alloc: Global, whole: &Term, places: &[u8], found: &str) -> Result<bool> {
    match whole.at(places) {
        Some(part) => is(alloc, part, found),
        None => Ok(found == "none"),
    }
}

/// Whether that becomes of the term with the new one at the places.
fn becomes(alloc: Global, whole: &Term, places: &[u8], new: Term, made: &str) -> Result<bool> {
    match whole.replace(alloc, places, new) {
        Ok(changed) => is(alloc, &changed, made),
        Err(ReplaceError::NoSuchPlace) => Ok(made == "none"),
        Err(ReplaceError::OutOfMemory) => bail!("out of memory"),
    }
}

/// The substitution of entries as `u=gx,v=a`.
pub fn substitution(alloc: Global, entries: &str) -> Result<Subst> {
    let mut made = Subst::new(alloc);
    for entry in entries.split(',') {
        if let Some((name, letters)) = entry.split_once('=') {
            for letter in name.as_bytes() {
                made.set(alloc, variable(*letter), term(alloc, letters)?)?;
            }
        }
    }
    Ok(made)
}

/// Whether this becomes of the term by the two substitutions one after the other, and by their
/// composition.
fn is_composed(
    alloc: Global,
    first: &str,
    then: &str,
    letters: &str,
    wanted: &str,
) -> Result<bool> {
    let first = substitution(alloc, first)?;
    let then = substitution(alloc, then)?;
    let start = term(alloc, letters)?;
    let after = then.apply(alloc, &first.apply(alloc, &start)?)?;
    let both = first.compose(alloc, &then)?.apply(alloc, &start)?;
    Ok(is(alloc, &after, wanted)? && is(alloc, &both, wanted)?)
}

/// Whether the match has these entries for u and v.
fn is_matched(alloc: Global, pattern: &str, letters: &str, entries: &str) -> Result<bool> {
    let found = matches(alloc, &term(alloc, pattern)?, &term(alloc, letters)?)?;
    let Some(found) = found else {
        return Ok(entries == "none");
    };
    let wanted = substitution(alloc, entries)?;
    for letter in [b'u', b'v'] {
        let same = match (found.get(variable(letter)), wanted.get(variable(letter))) {
            (Some(one), Some(other)) => one.same(other),
            (None, None) => true,
            _ => false,
        };
        if !same {
            return Ok(false);
        }
    }
    Ok(true)
}

/// Whether both terms have this instance under their most general unifier, where its variables are
/// renamed to u, v, w in the order of their first occurrences.
fn is_unified(alloc: Global, left: &str, right: &str, wanted: &str) -> Result<bool> {
    let left = term(alloc, left)?;
    let right = term(alloc, right)?;
    let Some(found) = unify(alloc, &left, &right)? else {
        return Ok(wanted == "none");
    };
    let one = renamed(alloc, &found.apply(alloc, &left)?)?;
    let other = renamed(alloc, &found.apply(alloc, &right)?)?;
    Ok(is(alloc, &one, wanted)? && is(alloc, &other, wanted)?)
}

/// The term with each variable renamed to its place among the first occurrences.
fn renamed(alloc: Global, found: &Term) -> Result<Term> {
    let mut names = Subst::new(alloc);
    let mut place: u32 = 0;
    for old in found.vars(alloc)?.as_slice() {
        names.set(alloc, *old, Term::var(VarId(place)))?;
        place = place.saturating_add(1);
    }
    Ok(names.apply(alloc, found)?)
}

/// Whether this is the term with `by` added to the number of each variable.
fn is_shifted(alloc: Global, letters: &str, by: u32, wanted: &str) -> Result<bool> {
    match shift(alloc, &term(alloc, letters)?, by) {
        Ok(made) => is(alloc, &made, wanted),
        Err(ShiftError::TooLarge) => Ok(wanted == "none"),
        Err(ShiftError::OutOfMemory) => bail!("out of memory"),
    }
}

/// How the first term stands to the second one.
fn relation_of(alloc: Global, order: &Lpo, one: &str, other: &str) -> Result<&'static str> {
    let one = term(alloc, one)?;
    let other = term(alloc, other)?;
    Ok(
        match (order.greater(&one, &other), order.greater(&other, &one)) {
            (true, false) => "above",
            (false, true) => "below",
            (false, false) => "neither",
            (true, true) => "both",
        },
    )
}
