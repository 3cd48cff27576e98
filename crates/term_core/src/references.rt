//! `TermRefs`, a list of terms that are kept elsewhere.

ghost use Rattle.std.specs.Prelude.{◌≡◌, ◌<◌, ◌≤◌, ◌++◌, ◌∷◌, [], Some, IfOk, OnOk, MatchOption};
ghost use Rattle.std.specs.Prelude.{length, slice_get};
ghost use Rattle.term_core.specs.References.{terms_of};

use crate::memory::OutOfMemory;
use crate::tree::Term;
use std::alloc::Global;
use std::marker::Model;

/// Terms that are elsewhere. Contracts see the list of the terms.
#[derive(Drop)]
pub struct TermRefs<'a> {
    items: Vec<&'a Term>,
}

impl<'a> Model for TermRefs<'a> {
    ghost use Rattle.std.specs.Prelude.{List};
    ghost use Rattle.std.specs.Coded.{coded_list};
    ghost use Rattle.term_core.specs.Tree.{Tree};
    ghost use Rattle.term_core.specs.Codes.{coded_tree};
    ghost use Rattle.term_core.specs.References.{terms_of};

    ghost Value = { List Tree };

    ghost coded = { coded_list coded_tree };

    ghost view = { λ a. terms_of a.items.items };
}

impl<'a> TermRefs<'a> {
    pub fn new(alloc: Global) -> TermRefs<'a>
        ensures { result ≡ [] }
    {
        TermRefs {
            items: Vec::new(alloc),
        }
    }

    /// No terms yet, with room for `count`.
    pub fn with_capacity(alloc: Global, count: usize) -> Result<TermRefs<'a>, OutOfMemory>
        ensures { IfOk result (λ made. made ≡ []) }
    {
        Ok(TermRefs {
            items: Vec::with_capacity(alloc, count)?,
        })
    }

    /// The terms of a slice.
    pub fn of(alloc: Global, terms: &'a [Term]) -> Result<TermRefs<'a>, OutOfMemory>
        ensures { IfOk result (λ made. made ≡ terms.now) }
    {
        let mut made = TermRefs::with_capacity(alloc, terms.len())?;
        made.push_all(terms)?;
        Ok(made)
    }

    pub fn as_slice(&self) -> &[&'a Term]
        ensures { terms_of result.now ≡ self.now }
    {
        self.items.as_slice()
    }

    pub fn get(&self, index: usize) -> Option<&'a Term>
        ensures { MatchOption result (length self.now ≤ index)
            (λ t. slice_get self.now index ≡ Some t.now) }
    {
        match self.items.get(index) {
            Some(term) => Some(*term),
            None => None,
        }
    }

    /// The term at a place.
    pub fn at(&self, index: usize) -> &'a Term
        requires { index < length self.now }
        ensures { slice_get self.now index ≡ Some result.now }
    {
        self.items[index]
    }

    pub fn push(&mut self, term: &'a Term) -> Result<(), OutOfMemory>
        ensures { OnOk result (self.new ≡ self.old ++ term.now ∷ []) }
    {
        self.items.push(term)?;
        Ok(())
    }

    /// Adds the terms of a slice. If memory runs out, some of them may have been added.
    pub fn push_all(&mut self, terms: &'a [Term]) -> Result<(), OutOfMemory>
        ensures { OnOk result (self.new ≡ self.old ++ terms.now) }
    {
        for term in terms {
            self.push(term)?;
        }
        Ok(())
    }

    /// Adds the terms of references. If memory runs out, some of them may have been added.
    pub fn extend(&mut self, terms: &[&'a Term]) -> Result<(), OutOfMemory>
        ensures { OnOk result (self.new ≡ self.old ++ terms_of terms.now) }
    {
        for term in terms {
            self.push(*term)?;
        }
        Ok(())
    }
}
