//! The term at a place.

ghost use Rattle.std.specs.Prelude.{◌<◌, ◌∷◌, [], IfOk, length};
ghost use Rattle.term_core.specs.Tree.{Tree};
ghost use Rattle.value_bank.specs.Answers.{IsAnswer, IsOrderOr};
ghost use Rattle.value_bank.specs.Preorders.{Makes};

use crate::answers::TermError;
use crate::bank::{Bank, ValueId};
use std::alloc::Global;
use term_core::{OutOfMemory, SymId, Term, Terms};

/// The most symbols of a term that is read from a bank. The term of a few cells can be larger than
/// any memory, since an argument that occurs twice is one cell.
pub const TERM_SYMBOLS: usize = 10_000;

impl Bank {
    /// The term at a place, each symbol of it written out. `Large` comes before memory is taken for
    /// the term itself, and no call of this one waits for another, however deep the term is.
    pub fn term(&self, alloc: Global, id: ValueId) -> Result<Term, TermError>
        requires { id.0 < length self.now }
        ensures { IsAnswer self.now id.0 result }
    {
        // Where the fields are read it is known that places have 32 bits.
        let _cells = &self.cells;
        match self.order(alloc, id.0 as u32) {
            Err(_) => Err(TermError::OutOfMemory),
            Ok(None) => Err(TermError::Large),
            Ok(Some(order)) => match self.make(alloc, &order) {
                Err(_) => Err(TermError::OutOfMemory),
                Ok(term) => Ok(term),
            },
        }
    }

    /// The places of the symbols of the term at a place, each before those of its arguments, of
    /// which the last one comes first; or None if there are more than 10,000.
    fn order(&self, alloc: Global, place: u32) -> Result<Option<Vec<u32>>, OutOfMemory>
        requires { place < length self.now }
        ensures { IfOk result (IsOrderOr self.now place) }
    {
        let mut order = Vec::new(alloc);
        let mut pending = Vec::new(alloc);
        pending.push(place)?;
        while let Some(next) = pending.pop() {
            if order.len() >= TERM_SYMBOLS {
                return Ok(None);
            }
            order.push(next)?;
            let (_, args) = self.cells.at(next);
            pending.extend_from_slice(args)?;
        }
        Ok(Some(order))
    }

    /// The term that the places make, from the last one to the first.
    fn make(&self, alloc: Global, order: &[u32]) -> Result<Term, OutOfMemory>
        requires { (t : Tree) × Makes self.now order.now (t ∷ []) }
        ensures { IfOk result (λ r. Makes self.now order.now (r ∷ [])) }
    {
        let mut made: Vec<Term> = Vec::new(alloc);
        let mut left = order.len();
        while left > 0 {
            left -= 1;
            let (sym, args) = self.cells.at(order[left]);
            let taken = made.split_off(made.len() - args.len())?;
            made.push(Term::app(SymId(sym), Terms::from_vec(alloc, taken)?))?;
        }
        match made.pop() {
            Some(term) => Ok(term),
            None => unreachable!(),
        }
    }
}
