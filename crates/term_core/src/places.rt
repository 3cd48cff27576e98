//! The subterm at a path, and its exchange.

ghost use Rattle.std.specs.Prelude.{◌≡◌, ◌<◌, ◌+◌, IfOk, MatchOption, Some, length, slice_get};
ghost use Rattle.std.specs.Prelude.{slice_set};
ghost use Rattle.term_core.specs.Tree.{Tree, trees_of};
ghost use Rattle.term_core.specs.Places.{IsArgument, IsAt, HasNoPlace, IsReplaced};
ghost use Rattle.term_core.specs.declared.places.ReplaceError.TheVariants.{
  OutOfMemory as out_of_memory,
};

use crate::lists::front;
use crate::memory::OutOfMemory;
use crate::tree::{Term, TermNode, Terms, copy_all};
use std::alloc::Global;
use std::fmt;

/// Why no subterm is exchanged.
#[derive(Clone, Copy, Debug, PartialEq, Eq)]
pub enum ReplaceError {
    /// The term has no such place.
    NoSuchPlace,
    OutOfMemory,
}

impl From<OutOfMemory> for ReplaceError {
    ghost from_gives = { λ _ e. e ≡ out_of_memory };

    fn from(_error: OutOfMemory) -> ReplaceError {
        ReplaceError::OutOfMemory
    }
}

impl fmt::Display for ReplaceError {
    ghost use Rattle.std.specs.Prelude.{Some};
    ghost use Rattle.term_core.specs.Words.{replace_words};

    ghost output = { λ error. Some (replace_words error) };

    fn fmt<W: fmt::Write>(&self, f: &mut fmt::Formatter<W>) -> fmt::Result {
        match self {
            ReplaceError::NoSuchPlace => f.write_str("no such place"),
            ReplaceError::OutOfMemory => f.write_str("out of memory"),
        }
    }
}

impl Term {
    /// The subterm at a path of argument numbers, which count from 1. The empty path is the place
    /// of the term itself.
    pub fn at(&self, path: &[u8]) -> Option<&Term>
        ensures { MatchOption result (HasNoPlace path.now self.now)
            (λ s. IsAt path.now self.now s.now) }
    {
        let Some((number, rest)) = front(path) else {
            return Some(self);
        };
        let TermNode::App(_, args) = &self.node else {
            return None;
        };
        let Some((_, argument)) = numbered(args, *number) else {
            return None;
        };
        argument.at(rest)
    }

    /// The term with the subterm at the path exchanged for `new`. `NoSuchPlace` comes if `at`
    /// answers None.
    pub fn replace(&self, alloc: Global, path: &[u8], new: Term) -> Result<Term, ReplaceError>
        ensures replaced { IfOk result (λ made. IsReplaced path.now self.now new made) }
        ensures no_such_place { result ≡ Err ReplaceError.NoSuchPlace
            → HasNoPlace path.now self.now }
    {
        let Some((number, rest)) = front(path) else {
            return Ok(new);
        };
        let TermNode::App(sym, args) = &self.node else {
            return Err(ReplaceError::NoSuchPlace);
        };
        let Some((index, argument)) = numbered(args, *number) else {
            return Err(ReplaceError::NoSuchPlace);
        };
        let changed = argument.replace(alloc, rest, new)?;
        Ok(Term::app(*sym, exchanged(alloc, args, index, changed)?))
    }
}

/// The argument of a number that counts from 1, with its index.
fn numbered(args: &Terms, number: u8) -> Option<(usize, &Term)>
    ensures { MatchOption result ((t : Tree) → IsArgument number (trees_of args.now) t → ⊥)
        (λ p. (number ≡ p.0 + 1) × (slice_get args.now p.0 ≡ Some p.1.now)) }
{
    let index = usize::from(number.checked_sub(1)?);
    Some((index, args.get(index)?))
}

/// Copies of the terms with the one at `index` exchanged.
fn exchanged(alloc: Global, terms: &Terms, index: usize, new: Term) -> Result<Terms, OutOfMemory>
    requires { index < length terms.now }
    ensures { IfOk result (λ made. made ≡ slice_set terms.now index new) }
{
    let terms = terms.as_slice();
    let mut made = copy_all(alloc, terms)?;
    made[index] = new;
    Terms::from_vec(alloc, made)
}
