//! `Regrouping`: classes put together where they have the same values at some of the samples.

use crate::class_table::{ClassId, ClassTable};
use crate::sampled::Sampled;
use bank_core::Table;
use std::alloc::Global;
use term_core::OutOfMemory;

/// Classes in groups by their values at some samples. The first class of a group represents it.
#[derive(Drop)]
pub(crate) struct Regrouping<'a> {
    samples: &'a [usize],
    groups: Table<u32, Sampled>,
    firsts: Vec<ClassId>,
}

impl<'a> Regrouping<'a> {
    /// No groups yet.
    pub(crate) fn new(alloc: Global, samples: &'a [usize]) -> Result<Regrouping<'a>, OutOfMemory> {
        let groups = Table::new(alloc)?;
        Ok(Regrouping {
            samples,
            groups,
            firsts: Vec::new(alloc),
        })
    }

    /// Puts the class into a group, and answers the first class of that group if it is another one.
    /// A representative isn't looked at if one of its arguments could be put for another one, since
    /// what would be found of it follows.
    pub(crate) fn add(
        &mut self,
        alloc: Global,
        table: &ClassTable,
        class: ClassId,
    ) -> Result<Option<ClassId>, OutOfMemory> {
        let Some(own) = table.representative(class) else {
            return Ok(None);
        };
        if !self.are_first(&own.args) {
            return Ok(None);
        }
        let values = picked(alloc, table.values(class), self.samples)?;
        let before = self.groups.len();
        let group = self.groups.add(own.sort.0, &values)?;
        if self.groups.len() > before {
            self.firsts.push(class)?;
            return Ok(None);
        }
        Ok(self.firsts.get(group as usize).copied())
    }

    /// Whether each of the classes is the first one of its group.
    fn are_first(&self, classes: &[ClassId]) -> bool {
        for class in classes {
            if !self.firsts.contains(class) {
                return false;
            }
        }
        true
    }
}

/// The values at the samples.
fn picked(
    alloc: Global,
    values: &[Sampled],
    samples: &[usize],
) -> Result<Vec<Sampled>, OutOfMemory> {
    let mut made = Vec::with_capacity(alloc, samples.len())?;
    for sample in samples {
        if let Some(value) = values.get(*sample) {
            made.push(*value)?;
        }
    }
    Ok(made)
}
