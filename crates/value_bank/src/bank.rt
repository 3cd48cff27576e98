//! `Bank`: cells of values.

ghost use Rattle.std.specs.Prelude.{◌≡◌, ◌≤◌, ◌<◌, ◌↔◌, suc, [], Some, IsTrue, IfOk, length};
ghost use Rattle.std.specs.Prelude.{slice_get};
ghost use Rattle.term_core.specs.Tree.{Tree};
ghost use Rattle.value_bank.specs.Cells.{cell, IsTerm, AreBelow, AddsCells};

use bank_core::Table;
use std::alloc::Global;
use std::marker::Model;
use term_core::OutOfMemory;

/// The place of a value in a bank. It keeps its value as long as the bank is there.
#[derive(Clone, Copy, Debug, PartialEq, Eq)]
pub struct ValueId(pub usize);

/// Shared values. Contracts see the list of their cells.
#[derive(Drop)]
pub struct Bank {
    pub(crate) cells: Table<u32, u32>,
}

impl Model for Bank {
    ghost use Rattle.std.specs.Prelude.{List, ◌<◌, ◌^◌, length};
    ghost use Rattle.value_bank.specs.Cells.{Cell, IsBank};

    ghost Value = { List Cell };

    ghost view = { λ a. a.cells };

    ghost invariant = { λ a. IsBank a.cells × (length a.cells < 2 ^ 32) };
}

impl Bank {
    /// A bank without values.
    pub fn new(alloc: Global) -> Result<Bank, OutOfMemory>
        ensures { IfOk result (λ made. made ≡ []) }
    {
        let cells = Table::new(alloc)?;
        Ok(Bank { cells })
    }

    /// How many cells there are.
    pub fn len(&self) -> usize
        ensures { result ≡ length self.now }
    {
        self.cells.len()
    }

    /// Whether the values at two places are the same: values are compared by their places.
    pub fn same(&self, a: ValueId, b: ValueId) -> bool
        ensures { (s t : Tree) → IsTerm self.now a.0 s → IsTerm self.now b.0 t
            → IsTrue result ↔ (s ≡ t) }
    {
        // Where the fields are read it is known that no two places have the same cell.
        let _cells = &self.cells;
        a.0 == b.0
    }

    /// The place as the number by which cells name it.
    #[inline(always)]
    pub fn number(&self, id: ValueId) -> u32
        requires { id.0 < length self.now }
        ensures { result ≡ id.0 }
    {
        // Where the fields are read it is known that places have 32 bits.
        let _cells = &self.cells;
        id.0 as u32
    }

    /// The symbol of the value at a place, and the places of its arguments.
    #[inline(always)]
    pub fn cell(&self, place: u32) -> (u32, &[u32])
        requires { place < length self.now }
        ensures { slice_get self.now place ≡ Some (cell result.0 result.1.now) }
    {
        self.cells.at(place)
    }

    /// The place of the symbol with arguments at these places. A cell is added if none is the same.
    #[inline(always)]
    pub fn add(&mut self, sym: u32, args: &[u32]) -> Result<u32, OutOfMemory>
        requires { AreBelow (length self.old) args.now }
        ensures found { IfOk result (λ p. slice_get self.new p ≡ Some (cell sym args.now)) }
        ensures adds { AddsCells self.old self.new }
        ensures few { length self.new ≤ suc (length self.old) }
    {
        let added = self.cells.add(sym, args);
        self.cells.shared_law();
        added
    }
}
