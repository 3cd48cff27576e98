//! The values of an application at the samples.

use crate::class_table::{ClassId, ClassTable};
use crate::classes::Classes;
use crate::sampled::Sampled;
use sample_values::Samples;
use std::alloc::Global;
use term_core::{OutOfMemory, SymId};

impl Classes<'_> {
    /// The values of the symbol's application to representatives of the classes.
    pub(crate) fn values_of(
        &self,
        alloc: Global,
        sym: SymId,
        args: &[ClassId],
        samples: &mut Samples<'_>,
    ) -> Result<Vec<Sampled>, OutOfMemory> {
        let mut values = Vec::new(alloc);
        for sample in 0..self.bounds.samples {
            values.push(value_of(alloc, &self.table, sym, args, sample, samples)?)?;
        }
        Ok(values)
    }
}

/// The value of the application at the sample.
fn value_of(
    alloc: Global,
    table: &ClassTable,
    sym: SymId,
    args: &[ClassId],
    sample: u32,
    samples: &mut Samples<'_>,
) -> Result<Sampled, OutOfMemory> {
    let mut row = Vec::with_capacity(alloc, args.len())?;
    for class in args {
        match table.value(*class, sample) {
            Sampled::Known(value) => row.push(value)?,
            Sampled::Unknown => return Ok(Sampled::Unknown),
        }
    }
    match samples.apply(alloc, sym, &row)? {
        Some(value) => Ok(Sampled::Known(value)),
        None => Ok(Sampled::Unknown),
    }
}

/// Whether more than a quarter of the values is unknown, so that they say little.
pub(crate) fn is_vague(values: &[Sampled]) -> bool {
    let mut unknown: usize = 0;
    for value in values {
        if *value == Sampled::Unknown {
            unknown = unknown.saturating_add(1);
        }
    }
    unknown > values.len() / 4
}
