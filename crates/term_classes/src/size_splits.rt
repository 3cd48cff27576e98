//! `SizeSplit`: all ways to split a size.

use std::alloc::Global;
use term_core::OutOfMemory;

/// Sizes of arguments, each at least 1, with a given sum.
#[derive(Drop)]
pub(crate) struct SizeSplit {
    sizes: Vec<u32>,
}

impl SizeSplit {
    /// The first split in lexicographic order, if there is one.
    pub(crate) fn new(
        alloc: Global,
        count: usize,
        sum: u32,
    ) -> Result<Option<SizeSplit>, OutOfMemory> {
        if count > sum as usize || (count == 0 && sum > 0) {
            return Ok(None);
        }
        let mut sizes = vec![in alloc; 1u32; count]?;
        if count > 0 {
            sizes[count - 1] = sum - (count as u32 - 1);
        }
        Ok(Some(SizeSplit { sizes }))
    }

    pub(crate) fn sizes(&self) -> &[u32] {
        self.sizes.as_slice()
    }

    /// Goes to the next split, if there is one: the last size but one that can grow does, at the
    /// expense of those after it, of which all but the last one are 1 again.
    pub(crate) fn advance(&mut self) -> bool {
        let Some(number) = self.last_large() else {
            return false;
        };
        if number == 0 || number >= self.sizes.len() {
            return false;
        }
        let rest = self.sizes[number].saturating_sub(1);
        let before = self.sizes[number - 1];
        let last = self.sizes.len() - 1;
        self.sizes[number] = 1;
        self.sizes[number - 1] = before.saturating_add(1);
        self.sizes[last] = rest;
        true
    }

    /// The number of the last size above 1.
    fn last_large(&self) -> Option<usize> {
        for number in (0..self.sizes.len()).rev() {
            if self.sizes[number] > 1 {
                return Some(number);
            }
        }
        None
    }
}
