//! Whether samples make a clause false.

use crate::samples::Samples;
use crate::small_values::advance;
use crate::values::Value;
use clause_core::Clause;
use spec_core::Equation;
use std::alloc::Global;
use term_core::{OutOfMemory, SortId};

/// The most room of a random value of a variable.
const MOST_ROOM: u32 = 6;

impl<'a> Samples<'a> {
    /// Whether the clause fails under some of as many random lists of values of its variables as
    /// asked, or of the first lists of small values, of which the last one goes on first.
    pub fn refutes(
        &mut self,
        alloc: Global,
        clause: &Clause,
        randoms: u32,
        small: u32,
    ) -> Result<bool, OutOfMemory> {
        if self.some_random_fails(alloc, clause, randoms)? {
            return Ok(true);
        }
        self.some_small_fails(alloc, clause, small)
    }

    /// Whether the clause fails under some of this many random lists of values.
    fn some_random_fails(
        &mut self,
        alloc: Global,
        clause: &Clause,
        randoms: u32,
    ) -> Result<bool, OutOfMemory> {
        for _list in 0..randoms {
            let values = self.random_list(alloc, clause.ctx.as_slice())?;
            if self.fails(alloc, clause, &values)? {
                return Ok(true);
            }
        }
        Ok(false)
    }

    /// A random value of each sort.
    fn random_list(&mut self, alloc: Global, sorts: &[SortId]) -> Result<Vec<Value>, OutOfMemory> {
        let mut values = Vec::with_capacity(alloc, sorts.len())?;
        for sort in sorts {
            let room = self.number(MOST_ROOM).saturating_add(1);
            let value = self.random(alloc, *sort, room)?;
            values.push(value)?;
        }
        Ok(values)
    }

    /// Whether the clause fails under some of the first lists of small values.
    fn some_small_fails(
        &mut self,
        alloc: Global,
        clause: &Clause,
        small: u32,
    ) -> Result<bool, OutOfMemory> {
        let sorts = clause.ctx.as_slice();
        let counts = self.counts_small(alloc, sorts)?;
        let mut places = Vec::from_elem(alloc, 0usize, counts.len())?;
        for _list in 0..small {
            let Some(values) = self.small_list(alloc, sorts, &places)? else {
                return Ok(false);
            };
            if self.fails(alloc, clause, &values)? {
                return Ok(true);
            }
            if !advance(&counts, &mut places) {
                return Ok(false);
            }
        }
        Ok(false)
    }

    /// How many small values each sort has, which are listed.
    fn counts_small(&mut self, alloc: Global, sorts: &[SortId]) -> Result<Vec<usize>, OutOfMemory> {
        let mut counts = Vec::with_capacity(alloc, sorts.len())?;
        for sort in sorts {
            self.prepare_small(alloc, *sort)?;
            counts.push(self.count_small(*sort))?;
        }
        Ok(counts)
    }

    /// The small values of the sorts with these numbers, if each is there.
    fn small_list(
        &self,
        alloc: Global,
        sorts: &[SortId],
        places: &[usize],
    ) -> Result<Option<Vec<Value>>, OutOfMemory> {
        let mut values = Vec::with_capacity(alloc, sorts.len())?;
        for (sort, place) in sorts.iter().zip(places) {
            match self.small_at(*sort, *place) {
                Some(value) => values.push(value)?,
                None => return Ok(None),
            }
        }
        Ok(Some(values))
    }

    /// Whether the clause fails under the values, if they have the sorts of its variables.
    fn fails(
        &mut self,
        alloc: Global,
        clause: &Clause,
        values: &[Value],
    ) -> Result<bool, OutOfMemory> {
        if !self.fit(values, clause.ctx.as_slice()) {
            return Ok(false);
        }
        if !self.all_give(alloc, clause.premises.as_slice(), values, true)? {
            return Ok(false);
        }
        self.all_give(alloc, clause.conclusions.as_slice(), values, false)
    }

    /// Whether the values have these sorts.
    fn fit(&self, values: &[Value], sorts: &[SortId]) -> bool {
        if values.len() != sorts.len() {
            return false;
        }
        for (value, sort) in values.iter().zip(sorts) {
            if !self.has_sort(*value, *sort) {
                return false;
            }
        }
        true
    }

    /// Whether the sides of each equation give the same value, or different values, the first ones
    /// first.
    fn all_give(
        &mut self,
        alloc: Global,
        equations: &[Equation],
        values: &[Value],
        same: bool,
    ) -> Result<bool, OutOfMemory> {
        for equation in equations {
            match self.compare(alloc, equation, values)? {
                Some(answer) => {
                    if answer != same {
                        return Ok(false);
                    }
                }
                None => return Ok(false),
            }
        }
        Ok(true)
    }

    /// Whether the sides give one value, if both give one.
    fn compare(
        &mut self,
        alloc: Global,
        equation: &Equation,
        values: &[Value],
    ) -> Result<Option<bool>, OutOfMemory> {
        let Some(left) = self.value(alloc, &equation.left, values)? else {
            return Ok(None);
        };
        let Some(right) = self.value(alloc, &equation.right, values)? else {
            return Ok(None);
        };
        Ok(Some(left == right))
    }
}
