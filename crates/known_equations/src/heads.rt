//! `HeadTable`: numbers of clauses by the symbol at the root of a side.

use std::alloc::Global;
use term_core::{OutOfMemory, SymId};

/// For each symbol the numbers of the clauses that may rewrite a term with it at the root, in their
/// order. It only says where to look.
#[derive(Drop)]
pub(crate) struct HeadTable {
    lists: Vec<Vec<usize>>,
}

impl HeadTable {
    pub(crate) fn new(alloc: Global) -> HeadTable {
        HeadTable {
            lists: Vec::new(alloc),
        }
    }

    /// Adds the number for this symbol.
    pub(crate) fn add(
        &mut self,
        alloc: Global,
        sym: SymId,
        number: usize,
    ) -> Result<(), OutOfMemory> {
        let place = sym.0 as usize;
        for _ in self.lists.len()..place + 1 {
            self.lists.push(Vec::new(alloc))?;
        }
        if let Some(numbers) = self.lists.get_mut(place) {
            numbers.push(number)?;
        }
        Ok(())
    }

    /// The numbers for this symbol.
    pub(crate) fn numbers_of(&self, sym: SymId) -> &[usize] {
        match self.lists.get(sym.0 as usize) {
            Some(numbers) => numbers.as_slice(),
            None => &[],
        }
    }

    /// Takes back the numbers from this one on.
    pub(crate) fn truncate(&mut self, count: usize) {
        for numbers in &mut self.lists {
            numbers.retain(|number| *number < count);
        }
    }
}
