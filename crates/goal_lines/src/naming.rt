//! Names of sorts, of lemmas and of their variables.

use spec_core::{Goal, Signature, Spec, VarInfo, append_decimal};
use spec_grammar::RawSpec;
use std::alloc::Global;
use term_core::{Name, OutOfMemory, Seq, SortId};

/// The names that variables get first.
const LETTERS: &[u8] = b"xyzuvw";

/// How many numbers are tried before a name is given up: more than a text can have names.
const MOST_NUMBERS: usize = 10_000;

/// The names of the sorts, by number.
#[derive(Drop)]
pub struct SortNames {
    names: Vec<Name>,
}

impl SortNames {
    /// The names of the sorts that a text declares, after `Bool`.
    pub fn of(alloc: Global, raw: &RawSpec) -> Result<SortNames, OutOfMemory> {
        let mut names = Vec::new(alloc);
        names.push(Name::of(alloc, b"Bool")?)?;
        for sort in raw.sorts.as_slice() {
            names.push(sort.head.name.copy(alloc)?)?;
        }
        Ok(SortNames { names })
    }

    pub fn name(&self, sort: SortId) -> &[u8] {
        match self.names.get(sort.0 as usize) {
            Some(name) => name.as_bytes(),
            None => b"",
        }
    }
}

/// The first name `lemma_N`, from this number on, that no goal and no symbol has, with its number.
pub fn lemma_name(
    alloc: Global,
    spec: &Spec,
    given: &[Goal],
    first: usize,
) -> Result<(Name, usize), OutOfMemory> {
    let mut number = first;
    for _try in 0..MOST_NUMBERS {
        let name = numbered(alloc, b"lemma_", number)?;
        if is_free(spec, given, &name) {
            return Ok((name, number));
        }
        number = number.saturating_add(1);
    }
    Ok((numbered(alloc, b"lemma_", number)?, number))
}

/// Whether nothing has this name.
fn is_free(spec: &Spec, given: &[Goal], name: &Name) -> bool {
    spec.goal_named(name).is_none()
        && !given.iter().any(|goal| goal.has_name(name))
        && spec.sig.symbol(name.as_bytes()).is_none()
}

/// Variables of these sorts: `x`, `y`, `z`, `u`, `v`, `w` and then `x1`, `x2` and so on, as far as
/// no symbol has these names.
pub fn variables(
    alloc: Global,
    sig: &Signature,
    sorts: &[SortId],
) -> Result<Seq<VarInfo>, OutOfMemory> {
    let mut made = Seq::new(alloc);
    let mut next = 0;
    for sort in sorts {
        let (name, number) = variable_name(alloc, sig, next)?;
        next = number.saturating_add(1);
        made.push(VarInfo { name, sort: *sort })?;
    }
    Ok(made)
}

/// The first name of a variable, from this number on, that no symbol has, with its number.
fn variable_name(
    alloc: Global,
    sig: &Signature,
    first: usize,
) -> Result<(Name, usize), OutOfMemory> {
    let mut number = first;
    for _try in 0..MOST_NUMBERS {
        let name = letter(alloc, number)?;
        if sig.symbol(name.as_bytes()).is_none() {
            return Ok((name, number));
        }
        number = number.saturating_add(1);
    }
    Ok((letter(alloc, number)?, number))
}

/// The name of this number among those of variables.
fn letter(alloc: Global, number: usize) -> Result<Name, OutOfMemory> {
    match LETTERS.get(number) {
        Some(letter) => Name::of(alloc, &[*letter]),
        None => numbered(alloc, b"x", number.saturating_sub(LETTERS.len())),
    }
}

fn numbered(alloc: Global, word: &[u8], number: usize) -> Result<Name, OutOfMemory> {
    let mut text = Vec::from_slice(alloc, word)?;
    append_decimal(number, &mut text)?;
    Ok(Name::from_bytes(text))
}
