//! Values of small depth.

use crate::samples::Samples;
use crate::values::Value;
use spec_core::{Signature, SymInfo};
use std::alloc::Global;
use term_core::{OutOfMemory, SortId, SymId};

/// The greatest depth of a small value.
const SMALL_DEPTH: u32 = 3;

/// The most small values of a sort.
const MOST_SMALL: usize = 3_000;

impl<'a> Samples<'a> {
    /// Lists the small values of the sort, unless that was done.
    pub(crate) fn prepare_small(&mut self, alloc: Global, sort: SortId) -> Result<(), OutOfMemory> {
        if self.count_small(sort) > 0 {
            return Ok(());
        }
        let sig = &self.spec().sig;
        let made = self.small_values(alloc, sig, sort, SMALL_DEPTH)?;
        self.put_small(sort, made);
        Ok(())
    }

    /// The values of the sort of at most this depth, by the numbers of their constructors.
    #[cycle(small)]
    fn small_values(
        &mut self,
        alloc: Global,
        sig: &Signature,
        sort: SortId,
        depth: u32,
    ) -> Result<Vec<Value>, OutOfMemory> {
        let mut made = Vec::new(alloc);
        if depth == 0 {
            return Ok(made);
        }
        for number in 0..sig.constructors() {
            let info = sig.info(SymId(number));
            if info.result.0 == sort.0 {
                let lists = self.argument_lists(alloc, sig, info, depth - 1)?;
                self.push_applications(alloc, SymId(number), &lists, &mut made)?;
            }
        }
        Ok(made)
    }

    /// By argument of a constructor, the values of its sort of at most this depth.
    #[cycle(small)]
    fn argument_lists(
        &mut self,
        alloc: Global,
        sig: &Signature,
        info: &SymInfo,
        depth: u32,
    ) -> Result<Vec<Vec<Value>>, OutOfMemory> {
        let mut lists = Vec::new(alloc);
        for sort in &info.args {
            let values = self.small_values(alloc, sig, *sort, depth)?;
            lists.push(values)?;
        }
        Ok(lists)
    }

    /// Appends the constructor's applications to arguments of these lists, of which the last one
    /// goes on first, until there are as many values as are wanted.
    fn push_applications(
        &mut self,
        alloc: Global,
        sym: SymId,
        lists: &[Vec<Value>],
        made: &mut Vec<Value>,
    ) -> Result<(), OutOfMemory> {
        let counts = lengths(alloc, lists)?;
        let mut places = Vec::from_elem(alloc, 0usize, counts.len())?;
        for _application in 0..MOST_SMALL {
            if made.len() >= MOST_SMALL {
                return Ok(());
            }
            let Some(args) = items_at(alloc, lists, &places)? else {
                return Ok(());
            };
            if let Some(value) = self.apply(alloc, sym, &args)? {
                made.push(value)?;
            }
            if !advance(&counts, &mut places) {
                return Ok(());
            }
        }
        Ok(())
    }
}

/// The lengths of the lists.
fn lengths(alloc: Global, lists: &[Vec<Value>]) -> Result<Vec<usize>, OutOfMemory> {
    let mut made = Vec::with_capacity(alloc, lists.len())?;
    for list in lists {
        made.push(list.len())?;
    }
    Ok(made)
}

/// The items at these places of the lists, if each is there.
fn items_at(
    alloc: Global,
    lists: &[Vec<Value>],
    places: &[usize],
) -> Result<Option<Vec<Value>>, OutOfMemory> {
    let mut items = Vec::with_capacity(alloc, lists.len())?;
    for (list, place) in lists.iter().zip(places) {
        match list.as_slice().get(*place) {
            Some(item) => items.push(*item)?,
            None => return Ok(None),
        }
    }
    Ok(Some(items))
}

/// Goes on to the next places below these counts, the last one first, and says whether there are
/// any.
pub(crate) fn advance(counts: &[usize], places: &mut [usize]) -> bool {
    let mut left = places.len().min(counts.len());
    while left > 0 {
        left -= 1;
        let next = places[left].saturating_add(1);
        if next < counts[left] {
            places[left] = next;
            return true;
        }
        places[left] = 0;
    }
    false
}
