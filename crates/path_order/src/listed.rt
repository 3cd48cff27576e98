//! Terms in the order of a status, or as written.

ghost use Rattle.std.specs.Prelude.{◌≡◌, ◌<◌, ◌+◌, IsTrue, length, get_or, drop, map};
ghost use Rattle.term_core.specs.Tree.{Tree};
ghost use Rattle.term_core.specs.Precedence.{is_status};
ghost use Rattle.path_order.specs.Arranged.{numbered};
ghost use Rattle.path_order.specs.Listed.{AreWithin, listed};

use term_core::Term;

/// Terms in an order: those of the numbers, which count from 1, or all of them as written.
#[derive(Clone, Copy)]
pub(crate) struct Listed<'a> {
    terms: &'a [Term],
    numbers: Option<&'a [u8]>,
    ghost within: { AreWithin (length terms.now) numbers },
}

impl<'a> Listed<'a> {
    pub(crate) fn all(terms: &'a [Term]) -> Listed<'a>
        ensures { listed result.numbers result.terms.now ≡ terms.now }
    {
        Listed {
            terms,
            numbers: None,
        }
    }

    /// The terms in the order of a status.
    pub(crate) fn in_order(terms: &'a [Term], status: &'a [u8]) -> Listed<'a>
        requires status { IsTrue (is_status status.now) }
        requires as_many { length status.now ≡ length terms.now }
        ensures { listed result.numbers result.terms.now ≡ map (numbered terms.now) status.now }
    {
        Listed {
            terms,
            numbers: Some(status),
        }
    }

    pub(crate) fn len(self) -> usize
        ensures { result ≡ length (listed self.entry.numbers self.entry.terms.now) }
    {
        match self.numbers {
            Some(numbers) => numbers.len(),
            None => self.terms.len(),
        }
    }

    pub(crate) fn at(self, index: usize) -> &'a Term
        requires { index < length (listed self.numbers self.terms.now) }
        ensures { (x : Tree) →
            result.now ≡ get_or (listed self.entry.numbers self.entry.terms.now) index x }
    {
        match self.numbers {
            Some(numbers) => &self.terms[numbers[index] as usize - 1],
            None => &self.terms[index],
        }
    }

    /// The terms after an index.
    pub(crate) fn after(self, index: usize) -> Listed<'a>
        requires { index < length (listed self.numbers self.terms.now) }
        ensures { listed result.numbers result.terms.now ≡
            drop (index + 1) (listed self.entry.numbers self.entry.terms.now) }
    {
        if let Some(numbers) = self.numbers {
            return Listed {
                terms: self.terms,
                numbers: Some(&numbers[index + 1..]),
            };
        }
        Listed {
            terms: &self.terms[index + 1..],
            numbers: None,
        }
    }
}
