//! `Rows`: the rows of arguments of given sorts and sizes.

use crate::class_table::{ClassId, ClassTable};
use std::alloc::Global;
use term_core::{OutOfMemory, SortId};

/// One class from each of some lists, in lexicographic order.
#[derive(Drop)]
pub(crate) struct Rows {
    lists: Vec<Vec<ClassId>>,
    /// A place in each list.
    places: Vec<usize>,
}

impl Rows {
    /// The first row of classes of these sorts with representatives of these sizes, if there is
    /// one.
    pub(crate) fn new(
        alloc: Global,
        table: &ClassTable,
        sorts: &[SortId],
        sizes: &[u32],
    ) -> Result<Option<Rows>, OutOfMemory> {
        let mut lists = Vec::with_capacity(alloc, sorts.len())?;
        for (sort, size) in sorts.iter().zip(sizes) {
            let list = table.of_size(alloc, *sort, *size)?;
            if list.is_empty() {
                return Ok(None);
            }
            lists.push(list)?;
        }
        let places = vec![in alloc; 0_usize; lists.len()]?;
        Ok(Some(Rows { lists, places }))
    }

    /// The classes of the row.
    pub(crate) fn classes(&self, alloc: Global) -> Result<Vec<ClassId>, OutOfMemory> {
        let mut row = Vec::with_capacity(alloc, self.lists.len())?;
        for (list, place) in self.lists.iter().zip(&self.places) {
            if let Some(class) = list.get(*place) {
                row.push(*class)?;
            }
        }
        Ok(row)
    }

    /// Goes to the next row, if there is one. The last place moves fastest.
    pub(crate) fn advance(&mut self) -> bool {
        for number in (0..self.places.len()).rev() {
            if self.turn(number) {
                return true;
            }
        }
        false
    }

    /// Moves a place to the next one of its list, or back to the first one if it was at the last.
    fn turn(&mut self, number: usize) -> bool {
        let Some(list) = self.lists.get(number) else {
            return false;
        };
        let length = list.len();
        if number >= self.places.len() {
            return false;
        }
        let next = self.places[number].saturating_add(1);
        let goes_on = next < length;
        self.places[number] = if goes_on { next } else { 0 };
        goes_on
    }
}
