//! Lists of what is compared.

ghost use Rattle.std.specs.Prelude.{◌≡◌, ◌<◌, ◌+◌, ℕ, List, IsTrue, [], length, get_or, drop, map};
ghost use Rattle.term_core.specs.Tree.{Tree};
ghost use Rattle.term_core.specs.Precedence.{is_status};
ghost use Rattle.term_order.specs.Operands.{read, meaning};
ghost use Rattle.path_order.specs.Arranged.{numbered};
ghost use Rattle.path_order.specs.Operands.{meanings};

use crate::listed::Listed;
use term_core::Term;
use term_order::Operand;

/// Terms that are compared, all of them as they are or all as patterns.
#[derive(Clone, Copy)]
pub(crate) struct Operands<'a> {
    pub(crate) terms: Listed<'a>,
    pub(crate) are_patterns: bool,
}

impl<'a> Operands<'a> {
    /// The terms, as they are or as patterns, as the operand is.
    pub(crate) fn with(operand: Operand<'a>, terms: &'a [Term]) -> Operands<'a>
        ensures { (values : List Tree) →
            meanings values result ≡ map (read values operand.entry.is_pattern) terms.now }
    {
        Operands {
            terms: Listed::all(terms),
            are_patterns: operand.is_pattern,
        }
    }

    /// The same in the order of a status.
    pub(crate) fn in_order(
        operand: Operand<'a>,
        terms: &'a [Term],
        status: &'a [u8],
    ) -> Operands<'a>
        requires status { IsTrue (is_status status.now) }
        requires as_many { length status.now ≡ length terms.now }
        ensures { (values : List Tree) →
            meanings values result ≡
            map (read values operand.entry.is_pattern) (map (numbered terms.now) status.now) }
    {
        Operands {
            terms: Listed::in_order(terms, status),
            are_patterns: operand.is_pattern,
        }
    }

    pub(crate) fn len(self) -> usize
        ensures { (values : List Tree) → result ≡ length (meanings values self.entry) }
    {
        self.terms.len()
    }

    /// The term at an index.
    pub(crate) fn at(self, index: usize) -> Operand<'a>
        requires { index < length (meanings [] self) }
        ensures { (values : List Tree) (x : Tree) →
            meaning values result ≡ get_or (meanings values self.entry) index x }
    {
        Operand {
            term: self.terms.at(index),
            is_pattern: self.are_patterns,
        }
    }

    /// The terms after an index.
    pub(crate) fn after(self, index: usize) -> Operands<'a>
        requires { index < length (meanings [] self) }
        ensures { (values : List Tree) →
            meanings values result ≡ drop (index + 1) (meanings values self.entry) }
    {
        Operands {
            terms: self.terms.after(index),
            are_patterns: self.are_patterns,
        }
    }
}
