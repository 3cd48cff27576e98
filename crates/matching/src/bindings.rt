//! `Bindings`: references to the terms of the variables that were met.

ghost use Rattle.std.specs.Prelude.{◌≡◌, [], None, IfOk, OnOk, replicate};
ghost use Rattle.std.specs.Option.{option_copied};
ghost use Rattle.term_core.specs.References.{terms_of};
ghost use Rattle.substitutions.specs.Substitution.{entry};
ghost use Rattle.substitutions.specs.Updates.{IsSetTo};
ghost use Rattle.matching.specs.Bindings.{present};

use std::alloc::Global;
use std::marker::Model;
use substitutions::Subst;
use term_core::{OutOfMemory, Seq, Term, VarId};

/// References to the terms of variables, by variable number. Contracts see the list of entries.
#[derive(Drop)]
pub struct Bindings<'a> {
    items: Vec<Option<&'a Term>>,
}

impl<'a> Model for Bindings<'a> {
    ghost use Rattle.std.specs.Prelude.{List, Option};
    ghost use Rattle.std.specs.Coded.{coded_list, coded_option};
    ghost use Rattle.term_core.specs.Tree.{Tree};
    ghost use Rattle.term_core.specs.Codes.{coded_tree};
    ghost use Rattle.matching.specs.Bindings.{entries_of};

    ghost Value = { List (Option Tree) };

    ghost coded = { coded_list (coded_option coded_tree) };

    ghost view = { λ a. entries_of a.items.items };
}

impl<'a> Bindings<'a> {
    /// No variables.
    pub fn new(alloc: Global) -> Bindings<'a>
        ensures { result ≡ [] }
    {
        Bindings {
            items: Vec::new(alloc),
        }
    }

    /// As many variables, each without an entry, in the room that is there.
    pub fn reset(&mut self, count: usize) -> Result<(), OutOfMemory>
        ensures { OnOk result (self.new ≡ replicate count None) }
    {
        self.items.clear();
        self.items.resize(count, None)?;
        Ok(())
    }

    /// The entry of the variable.
    pub fn get(&self, var: VarId) -> Option<&'a Term>
        ensures { option_copied result ≡ entry self.now var.0 }
    {
        match self.items.get(var.0 as usize) {
            Some(Some(term)) => Some(*term),
            _ => None,
        }
    }

    /// Gives the variable this entry, in place of the one that it had.
    pub fn set(&mut self, var: VarId, term: &'a Term) -> Result<(), OutOfMemory>
        ensures { OnOk result (IsSetTo self.old var.0 term.now self.new) }
    {
        let place = var.0 as usize;
        if self.items.len() <= place {
            self.items.resize(place + 1, None)?;
        }
        self.items[place] = Some(term);
        Ok(())
    }

    /// Makes of `found` the list of the entries that are there, by the numbers of their variables.
    pub fn list(&self, found: &mut Vec<&'a Term>) -> Result<(), OutOfMemory>
        ensures { OnOk result (terms_of found.new.items ≡ present self.now) }
    {
        found.clear();
        for entry in &self.items {
            if let Some(term) = entry {
                found.push(*term)?;
            }
        }
        Ok(())
    }

    /// The substitution by copies of the terms.
    pub(crate) fn copied(&self, alloc: Global) -> Result<Subst, OutOfMemory>
        ensures { IfOk result (λ made. made.terms ≡ self.now) }
    {
        let mut terms = Vec::with_capacity(alloc, self.items.len())?;
        for entry in &self.items {
            terms.push(copy_of(alloc, *entry)?)?;
        }
        Ok(Subst {
            terms: Seq::from_vec(terms),
        })
    }
}

/// A copy of the term, if there is one.
fn copy_of(alloc: Global, found: Option<&Term>) -> Result<Option<Term>, OutOfMemory>
    ensures { IfOk result (λ made. made ≡ option_copied found.entry) }
{
    match found {
        Some(term) => Ok(Some(term.copy(alloc)?)),
        None => Ok(None),
    }
}
