//! `KnownValues`: the values that have numbers.

ghost use Rattle.std.specs.Prelude.{◌≡◌, ◌<◌, [], ◌∷◌, ◌++◌, OnOk, OnErr, length, slice_get};

use crate::values::Value;
use std::alloc::Global;
use std::marker::Model;
use term_core::{OutOfMemory, SortId};

/// The place of a value in the bank, and its sort.
#[derive(Clone, Copy)]
pub(crate) struct Known {
    pub(crate) place: u32,
    pub(crate) sort: SortId,
}

/// The values that have numbers. Contracts see their list.
#[derive(Drop)]
pub(crate) struct KnownValues {
    items: Vec<Known>,
    /// By place: one more than the number of the value there, or 0.
    numbers: Vec<u32>,
}

impl Model for KnownValues {
    ghost use Rattle.std.specs.Prelude.{List};
    ghost use Rattle.sample_values.specs.declared.known_values.Known.{Known};

    ghost Value = { List Known };

    ghost view = { λ k. k.items.items };
}

impl KnownValues {
    pub(crate) fn new(alloc: Global) -> KnownValues
        ensures { result ≡ [] }
    {
        KnownValues {
            items: Vec::new(alloc),
            numbers: Vec::new(alloc),
        }
    }

    /// What is known of the value with this number.
    #[inline(always)]
    pub(crate) fn get(&self, value: Value) -> Option<Known>
        ensures { result ≡ slice_get self.now value.0 }
    {
        match self.items.as_slice().get(value.0 as usize) {
            Some(known) => Some(*known),
            None => None,
        }
    }

    /// The value at a place, if it has a number.
    pub(crate) fn find(&self, place: u32) -> Option<Value> {
        match self.numbers.as_slice().get(place as usize) {
            Some(number) => {
                if *number > 0 {
                    Some(Value(*number - 1))
                } else {
                    None
                }
            }
            None => None,
        }
    }

    /// Gives a value the next number.
    pub(crate) fn add(&mut self, known: Known) -> Result<Value, OutOfMemory>
        ensures added { OnOk result (self.new ≡ self.old ++ known ∷ []) }
        ensures kept { OnErr result (self.new ≡ self.old) }
    {
        let number = self.items.len();
        if number >= 0xffff_ffff {
            return Err(OutOfMemory);
        }
        widen(&mut self.numbers, known.place)?;
        self.items.push(known)?;
        self.numbers[known.place as usize] = number as u32 + 1;
        Ok(Value(number as u32))
    }
}

/// Adds zeros up to the place.
fn widen(numbers: &mut Vec<u32>, place: u32) -> Result<(), OutOfMemory>
    ensures { OnOk result (place < length numbers.new.items) }
{
    while numbers.len() <= place as usize {
        numbers.push(0)?;
    }
    Ok(())
}
