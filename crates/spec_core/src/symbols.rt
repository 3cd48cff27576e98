//! `Signature` and its look-ups.

ghost use Rattle.std.specs.Prelude.{◌≡◌, ◌≤◌, ◌<◌, ◌↔◌, Some, IfOk, IsTrue, length, map};
ghost use Rattle.std.specs.Prelude.{option_map, position, slice_get};
ghost use Rattle.std.specs.Str.{bytes_eq};
ghost use Rattle.spec_core.specs.Sig.{IsConstructor, info_of, names_of};
ghost use Rattle.spec_core.specs.Declarations.{IsDeclared};
ghost use Rattle.spec_core.specs.Order.{symbol_number, constructor_numbers};

use crate::records::SymInfo;
use crate::tables::Tables;
use std::alloc::Global;
use std::marker::Model;
use term_core::{OutOfMemory, Seq, SortId, SymId, place_of};

/// The declared sorts and symbols, with `Bool`, `true` and `false` first. A symbol's number is its
/// place in the table, and constructors come before functions.
#[derive(Drop)]
pub struct Signature {
    pub(crate) tables: Tables,
}

impl Model for Signature {
    ghost use Rattle.spec_core.specs.Sig.{Sig};

    ghost Value = { Sig };

    ghost use Rattle.spec_core.specs.Declarations.{IsDeclared};

    ghost view = { λ a. a.tables };

    ghost invariant = { λ a. IsDeclared a.tables };
}

impl Signature {
    /// Each signature is declared, which the layers above can't see from its type. It does nothing.
    pub fn declared(&self)
        ensures { IsDeclared self.now }
    {
        // A proof knows the invariant of a value from where its fields are read.
        let _tables = &self.tables;
    }

    /// How many sorts there are, with `Bool`.
    pub fn sorts(&self) -> u32
        ensures { result ≡ length self.now.sorts }
    {
        self.tables.sorts()
    }

    /// How many constructors and functions there are, with `true` and `false`.
    pub fn symbols(&self) -> u32
        ensures { result ≡ length self.now.table }
    {
        self.tables.symbols()
    }

    /// How many constructors there are, with `true` and `false`.
    pub fn constructors(&self) -> u32
        ensures count { result ≡ self.now.constructors }
        ensures within { result ≤ length self.now.table }
    {
        self.tables.constructors()
    }

    /// The sort with this name.
    pub fn sort(&self, name: &[u8]) -> Option<SortId>
        ensures { option_map (λ s. s.0) result ≡ position (bytes_eq name.now) self.now.sorts }
    {
        match place_of(self.tables.sorts.as_slice(), name) {
            Some(place) => Some(SortId(place as u32)),
            None => None,
        }
    }

    /// The symbol with this name.
    pub fn symbol(&self, name: &[u8]) -> Option<SymId>
        ensures { option_map (λ f. f.0) result ≡ position (bytes_eq name.now) (names_of self.now) }
    {
        match self.tables.symbols.get_index_of(name) {
            Some(place) => Some(SymId(place as u32)),
            None => None,
        }
    }

    pub fn info(&self, sym: SymId) -> &SymInfo
        requires { sym.0 < length self.now.table }
        ensures { info_of self.now sym.0 ≡ Some result.now }
    {
        self.tables.info(sym)
    }

    /// The name of the symbol.
    pub fn name(&self, sym: SymId) -> &[u8]
        requires { sym.0 < length self.now.table }
        ensures { slice_get (names_of self.now) sym.0 ≡ Some result.now }
    {
        match self.tables.symbols.get_index(sym.0 as usize) {
            Some((name, _)) => name.as_slice(),
            None => unreachable!(),
        }
    }

    /// The constructors of the sort, in the order of their declaration.
    pub fn constructors_of(&self, alloc: Global, sort: SortId) -> Result<Seq<SymId>, OutOfMemory>
        ensures { IfOk result (λ made. map symbol_number made ≡ constructor_numbers self.now sort) }
    {
        let mut made = Seq::new(alloc);
        for number in 0..self.constructors() {
            if self.info(SymId(number)).result.0 == sort.0 {
                made.push(SymId(number))?;
            }
        }
        Ok(made)
    }

    pub fn is_constructor(&self, sym: SymId) -> bool
        requires { sym.0 < length self.now.table }
        ensures { IsTrue result ↔ IsConstructor self.now sym.0 }
    {
        sym.0 < self.tables.constructors()
    }
}
