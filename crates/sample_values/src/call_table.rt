//! `CallTable`: calls that were made before.

use crate::values::Value;
use bank_core::{Table, hash_entry};
use std::alloc::Global;
use term_core::{OutOfMemory, SymId};

/// A table begins again if it has as many calls.
const MANY_CALLS: usize = 1 << 20;

/// Applications of symbols to values, and what each of them gave, if it gave a value.
#[derive(Drop)]
pub(crate) struct CallTable {
    calls: Table<u32, Value>,
    answers: Vec<Option<Value>>,
}

impl CallTable {
    pub(crate) fn new(alloc: Global) -> Result<CallTable, OutOfMemory> {
        let calls = Table::new(alloc)?;
        Ok(CallTable {
            calls,
            answers: Vec::new(alloc),
        })
    }

    /// What the application gave, if it was made before.
    #[inline(always)]
    pub(crate) fn find(&self, sym: SymId, args: &[Value]) -> Option<Option<Value>> {
        let hash = hash_entry(sym.0, args);
        let place = self.calls.find(sym.0, args, hash)?;
        let answer = self.answers.as_slice().get(place as usize)?;
        Some(*answer)
    }

    /// Keeps what an application gave.
    pub(crate) fn keep(
        &mut self,
        alloc: Global,
        sym: SymId,
        args: &[Value],
        answer: Option<Value>,
    ) -> Result<(), OutOfMemory> {
        if self.calls.len() >= MANY_CALLS {
            *self = CallTable::new(alloc)?;
        }
        self.put(sym, args, answer)
    }

    /// The same, however many calls there are.
    fn put(
        &mut self,
        sym: SymId,
        args: &[Value],
        answer: Option<Value>,
    ) -> Result<(), OutOfMemory> {
        let place = self.calls.add(sym.0, args)? as usize;
        if place < self.answers.len() {
            self.answers[place] = answer;
        } else if place == self.answers.len() {
            self.answers.push(answer)?;
        }
        Ok(())
    }
}
