//! The tables of sorts and symbols that a signature is made of.

ghost use Rattle.std.specs.Prelude.{◌≡◌, ◌≤◌, ◌<◌, Some, length};
ghost use Rattle.spec_core.specs.Sig.{info_of};

use crate::records::SymInfo;
use indexmap::IndexMap;
use std::marker::Model;
use term_core::{Name, Seq, SymId};

/// The declared sorts and symbols by number, before it is known that each sort has a small value.
#[derive(Drop)]
pub(crate) struct Tables {
    pub(crate) sorts: Seq<Name>,
    pub(crate) symbols: IndexMap<Vec<u8>, SymInfo>,
    pub(crate) constructors: u32,
}

impl Model for Tables {
    ghost use Rattle.std.specs.Prelude.{List, ℕ, map, length, ◌<◌, ◌≤◌, ◌^◌};
    ghost use Rattle.spec_core.specs.Sig.{Sig};

    ghost Value = { Sig };

    ghost view = { λ a. record {
      sorts = a.sorts;
      table = map (λ e. (e.0.items, e.1)) a.symbols.entries;
      constructors = a.constructors;
    } };

    ghost invariant = { λ a. (length a.symbols.entries < 2 ^ 32) ×
        (length a.sorts < 2 ^ 32) × (a.constructors ≤ length a.symbols.entries) };
}

impl Tables {
    pub(crate) fn sorts(&self) -> u32
        ensures { result ≡ length self.now.sorts }
    {
        self.sorts.len() as u32
    }

    pub(crate) fn symbols(&self) -> u32
        ensures { result ≡ length self.now.table }
    {
        self.symbols.len() as u32
    }

    pub(crate) fn constructors(&self) -> u32
        ensures count { result ≡ self.now.constructors }
        ensures within { result ≤ length self.now.table }
    {
        self.constructors
    }

    pub(crate) fn info(&self, sym: SymId) -> &SymInfo
        requires { sym.0 < length self.now.table }
        ensures { info_of self.now sym.0 ≡ Some result.now }
    {
        match self.symbols.get_index(sym.0 as usize) {
            Some((_, info)) => info,
            None => unreachable!(),
        }
    }
}
