//! `ClassTable`: classes of terms by their values at the samples.

use crate::sampled::Sampled;
use bank_core::Table;
use std::alloc::Global;
use term_core::{OutOfMemory, SortId, Term};

/// A class, by its place in the order in which they were made.
#[derive(Clone, Copy, PartialEq, Eq)]
pub(crate) struct ClassId(pub u32);

/// The first term of a class that came up. Its arguments represent classes themselves.
#[derive(Drop)]
pub(crate) struct Representative {
    pub(crate) term: Term,
    pub(crate) sort: SortId,
    pub(crate) size: u32,
    pub(crate) args: Vec<ClassId>,
}

/// Classes, each of a sort and with values at the samples, and their representatives.
#[derive(Drop)]
pub(crate) struct ClassTable {
    values: Table<u32, Sampled>,
    representatives: Vec<Representative>,
}

impl ClassTable {
    pub(crate) fn new(alloc: Global) -> Result<ClassTable, OutOfMemory> {
        let values = Table::new(alloc)?;
        Ok(ClassTable {
            values,
            representatives: Vec::new(alloc),
        })
    }

    /// How many classes there are. No more of them have numbers.
    pub(crate) fn len(&self) -> u32 {
        self.representatives.len().min(u32::MAX as usize) as u32
    }

    pub(crate) fn representative(&self, class: ClassId) -> Option<&Representative> {
        self.representatives.get(class.0 as usize)
    }

    /// The values of the class at the samples.
    pub(crate) fn values(&self, class: ClassId) -> &[Sampled] {
        if class.0 as usize >= self.values.len() {
            return &[];
        }
        let (_, values) = self.values.at(class.0);
        values
    }

    /// The value of the class at a sample.
    pub(crate) fn value(&self, class: ClassId, sample: u32) -> Sampled {
        match self.values(class).get(sample as usize) {
            Some(value) => *value,
            None => Sampled::Unknown,
        }
    }

    /// The class of the terms of this sort with these values. If there is none it is made, and
    /// a representative has to be added.
    pub(crate) fn class_of(
        &mut self,
        sort: SortId,
        values: &[Sampled],
    ) -> Result<Option<ClassId>, OutOfMemory> {
        let before = self.values.len();
        let place = self.values.add(sort.0, values)?;
        if self.values.len() > before {
            return Ok(None);
        }
        Ok(Some(ClassId(place)))
    }

    /// Adds the representative of the class that was made last.
    pub(crate) fn represent(&mut self, representative: Representative) -> Result<(), OutOfMemory> {
        self.representatives.push(representative)?;
        Ok(())
    }

    /// The classes of this sort whose representatives have this size.
    pub(crate) fn of_size(
        &self,
        alloc: Global,
        sort: SortId,
        size: u32,
    ) -> Result<Vec<ClassId>, OutOfMemory> {
        let mut classes = Vec::new(alloc);
        for number in 0..self.len() {
            let class = ClassId(number);
            if let Some(own) = self.representative(class) {
                if own.sort == sort && own.size == size {
                    classes.push(class)?;
                }
            }
        }
        Ok(classes)
    }
}
