//! `Premise`: a Boolean representative that is true, or false, at some samples.

use crate::class_table::ClassId;
use crate::classes::Classes;
use crate::sampled::Sampled;
use sample_values::Samples;
use std::alloc::Global;
use term_core::{OutOfMemory, SortId, TermNode, VarId};

/// The sort of truth values.
const BOOL: SortId = SortId(0);

/// The fewest symbols of a premise, and the most.
const FEWEST_SYMBOLS: u32 = 2;

const MOST_SYMBOLS: u32 = 4;

/// At fewer samples too many terms have the same values by chance.
const FEWEST_SAMPLES: usize = 8;

/// That a representative is true, or false, and the samples at which it is.
#[derive(Drop)]
pub(crate) struct Premise {
    pub(crate) class: ClassId,
    pub(crate) wanted: bool,
    pub(crate) samples: Vec<usize>,
}

impl Classes<'_> {
    /// The premises of conditional candidates, each true and then false.
    pub(crate) fn premises(
        &self,
        alloc: Global,
        samples: &Samples<'_>,
    ) -> Result<Vec<Premise>, OutOfMemory> {
        let mut made = Vec::new(alloc);
        for number in 0..self.table.len() {
            let class = ClassId(number);
            if self.is_test(alloc, class)? {
                self.add_premise(alloc, class, true, samples, &mut made)?;
                self.add_premise(alloc, class, false, samples, &mut made)?;
            }
        }
        Ok(made)
    }

    /// Whether the representative is a small Boolean application of a function, with its variables
    /// as in the first of all its renamings.
    fn is_test(&self, alloc: Global, class: ClassId) -> Result<bool, OutOfMemory> {
        let Some(own) = self.table.representative(class) else {
            return Ok(false);
        };
        if own.sort != BOOL || own.size < FEWEST_SYMBOLS || own.size > MOST_SYMBOLS {
            return Ok(false);
        }
        let TermNode::App(sym, _) = &own.term.node else {
            return Ok(false);
        };
        let vars = own.term.vars(alloc)?;
        Ok(sym.0 >= self.spec.sig.constructors() && self.has_first_variables(vars.as_slice()))
    }

    /// Whether the variables of each sort occur in their order, from its first one.
    fn has_first_variables(&self, vars: &[VarId]) -> bool {
        for (place, var) in vars.iter().enumerate() {
            if let Some(before) = self.variable_before(*var) {
                if place <= place_of(vars, before) {
                    return false;
                }
            }
        }
        true
    }

    /// The variable of the same sort that is numbered before this one.
    fn variable_before(&self, var: VarId) -> Option<VarId> {
        let before = var.0.checked_sub(1)?;
        let sort = self.sorts.get(var.0 as usize)?;
        let other = self.sorts.get(before as usize)?;
        if sort == other {
            Some(VarId(before))
        } else {
            None
        }
    }

    /// Adds the premise that the representative has this truth value, if enough samples have it and
    /// some haven't.
    fn add_premise(
        &self,
        alloc: Global,
        class: ClassId,
        wanted: bool,
        samples: &Samples<'_>,
        made: &mut Vec<Premise>,
    ) -> Result<(), OutOfMemory> {
        let values = self.table.values(class);
        let chosen = places_of(alloc, values, Sampled::Known(samples.boolean(wanted)))?;
        if chosen.len() >= FEWEST_SAMPLES && chosen.len() < values.len() {
            made.push(Premise {
                class,
                wanted,
                samples: chosen,
            })?;
        }
        Ok(())
    }
}

/// The first place of the variable, or their number if it isn't there.
fn place_of(vars: &[VarId], var: VarId) -> usize {
    for (place, other) in vars.iter().enumerate() {
        if other.0 == var.0 {
            return place;
        }
    }
    vars.len()
}

/// The places of the value.
fn places_of(
    alloc: Global,
    values: &[Sampled],
    wanted: Sampled,
) -> Result<Vec<usize>, OutOfMemory> {
    let mut places = Vec::new(alloc);
    for (place, value) in values.iter().enumerate() {
        if *value == wanted {
            places.push(place)?;
        }
    }
    Ok(places)
}
