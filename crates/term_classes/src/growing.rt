//! `Classes::grow`: the terms of one size.

use crate::candidates::{Candidate, equation};
use crate::class_table::{ClassId, Representative};
use crate::classes::Classes;
use crate::evaluating::is_vague;
use crate::rows::Rows;
use crate::sampled::Sampled;
use crate::size_splits::SizeSplit;
use known_equations::Known;
use sample_values::Samples;
use std::alloc::Global;
use term_core::{OutOfMemory, SortId, SymId, Term, Terms, VarId};
use term_order::TermOrder;

/// The most variables of a term: lemmas with more are hardly ever of use.
const MOST_VARIABLES: usize = 4;

/// The most ways to split a size among arguments. Terms of up to eleven symbols have no more.
const MOST_SPLITS: u32 = 252;

/// Applications of a symbol that have one size, and the work at which no more of them are made.
#[derive(Clone, Copy)]
struct Shape {
    sym: SymId,
    size: u32,
    stop: u64,
}

impl<'a> Classes<'a> {
    /// Takes in the terms of this size whose arguments represent classes, and answers candidates:
    /// a term that belongs to a class equals its representative. Sizes are to come one after the
    /// other, from 1. A term is left out if it has more than four variables, can be rewritten at
    /// its root, or has no value at more than a quarter of the samples. Once this much work is
    /// done, no more terms are made: a unit is a try of a match, or four uses of rules by the
    /// evaluator.
    pub fn grow<O: TermOrder>(
        &mut self,
        alloc: Global,
        size: u32,
        samples: &mut Samples<'_>,
        known: &mut Known<'_, O>,
        most_work: u64,
    ) -> Result<Vec<Candidate>, OutOfMemory> {
        self.found.clear();
        let stop = work(samples, known).saturating_add(most_work);
        if size == 1 {
            self.add_variables(alloc, known)?;
        }
        for place in 0..self.scope.len() {
            let Some(sym) = self.scope.get(place).copied() else {
                break;
            };
            let shape = Shape { sym, size, stop };
            self.add_applications(alloc, shape, samples, known)?;
        }
        Ok(self.taken(alloc))
    }

    fn add_variables<O: TermOrder>(
        &mut self,
        alloc: Global,
        known: &Known<'_, O>,
    ) -> Result<(), OutOfMemory> {
        for place in 0..self.sorts.len() {
            let Some(sort) = self.sorts.get(place).copied() else {
                break;
            };
            let Ok(number) = u32::try_from(place) else {
                break;
            };
            let values = self.values_of_variable(alloc, place)?;
            let variable = Representative {
                term: Term::var(VarId(number)),
                sort,
                size: 1,
                args: Vec::new(alloc),
            };
            self.take_in(alloc, variable, &values, known)?;
        }
        Ok(())
    }

    /// The values of the variable of this number at the samples.
    fn values_of_variable(
        &self,
        alloc: Global,
        number: usize,
    ) -> Result<Vec<Sampled>, OutOfMemory> {
        let mut values = Vec::with_capacity(alloc, self.drawn.len())?;
        for row in &self.drawn {
            if let Some(value) = row.get(number) {
                values.push(Sampled::Known(*value))?;
            }
        }
        Ok(values)
    }

    /// Takes in the applications of this shape.
    fn add_applications<O: TermOrder>(
        &mut self,
        alloc: Global,
        shape: Shape,
        samples: &mut Samples<'_>,
        known: &mut Known<'_, O>,
    ) -> Result<(), OutOfMemory> {
        if shape.sym.0 >= self.spec.sig.symbols() || shape.size == 0 {
            return Ok(());
        }
        let count = self.spec.sig.info(shape.sym).args.len();
        let Some(mut split) = SizeSplit::new(alloc, count, shape.size - 1)? else {
            return Ok(());
        };
        for _ in 0..MOST_SPLITS {
            self.add_rows(alloc, shape, &split, samples, known)?;
            if !split.advance() {
                break;
            }
        }
        Ok(())
    }

    /// Takes in the applications with arguments of these sizes.
    fn add_rows<O: TermOrder>(
        &mut self,
        alloc: Global,
        shape: Shape,
        split: &SizeSplit,
        samples: &mut Samples<'_>,
        known: &mut Known<'_, O>,
    ) -> Result<(), OutOfMemory> {
        if shape.sym.0 >= self.spec.sig.symbols() {
            return Ok(());
        }
        let sorts = self.spec.sig.info(shape.sym).args.as_slice();
        let Some(mut rows) = Rows::new(alloc, &self.table, sorts, split.sizes())? else {
            return Ok(());
        };
        for _ in 0..self.rows_left() {
            if self.is_full() || work(samples, known) >= shape.stop {
                break;
            }
            let args = rows.classes(alloc)?;
            self.add_application(alloc, shape, args, samples, known)?;
            if !rows.advance() {
                break;
            }
        }
        Ok(())
    }

    /// Takes in the application to representatives of the classes.
    fn add_application<O: TermOrder>(
        &mut self,
        alloc: Global,
        shape: Shape,
        args: Vec<ClassId>,
        samples: &mut Samples<'_>,
        known: &mut Known<'_, O>,
    ) -> Result<(), OutOfMemory> {
        self.rows = self.rows.saturating_add(1);
        if shape.sym.0 >= self.spec.sig.symbols() {
            return Ok(());
        }
        let sort = self.spec.sig.info(shape.sym).result;
        let term = Term::app(shape.sym, self.representatives(alloc, &args)?);
        let many = term.vars(alloc)?.len() > MOST_VARIABLES;
        if many || known.is_reducible(alloc, &term)? {
            return Ok(());
        }
        let values = self.values_of(alloc, shape.sym, &args, samples)?;
        let size = shape.size;
        let application = Representative {
            term,
            sort,
            size,
            args,
        };
        self.take_in(alloc, application, &values, known)
    }

    /// The representatives of the classes.
    fn representatives(&self, alloc: Global, classes: &[ClassId]) -> Result<Terms, OutOfMemory> {
        let mut terms = Vec::with_capacity(alloc, classes.len())?;
        for class in classes {
            if let Some(own) = self.table.representative(*class) {
                terms.push(own.term.copy(alloc)?)?;
            }
        }
        Terms::from_vec(alloc, terms)
    }

    /// Takes in a term with its values. It represents a new class, or is a candidate.
    fn take_in<O: TermOrder>(
        &mut self,
        alloc: Global,
        term: Representative,
        values: &[Sampled],
        known: &Known<'_, O>,
    ) -> Result<(), OutOfMemory> {
        self.terms = self.terms.saturating_add(1);
        if is_vague(values) {
            return Ok(());
        }
        match self.table.class_of(term.sort, values)? {
            Some(class) => self.add_candidate(alloc, &term, class, known),
            None => self.table.represent(term),
        }
    }

    /// Adds the candidate that the term equals the representative of the class, unless it came up.
    /// The greater side is the left one.
    fn add_candidate<O: TermOrder>(
        &mut self,
        alloc: Global,
        term: &Representative,
        class: ClassId,
        known: &Known<'_, O>,
    ) -> Result<(), OutOfMemory> {
        let Some(other) = self.table.representative(class) else {
            return Ok(());
        };
        let size = term.size.saturating_add(other.size);
        let straight = equation(alloc, &term.term, &other.term)?;
        let swapped = equation(alloc, &other.term, &term.term)?;
        let falls_back = known.order().greater(&other.term, &term.term);
        let straight = Candidate::new(alloc, &self.sorts, Vec::new(alloc), straight, size)?;
        let swapped = Candidate::new(alloc, &self.sorts, Vec::new(alloc), swapped, size)?;
        let is_new = self.seen.add(alloc, &straight.clause)?;
        let _also = self.seen.add(alloc, &swapped.clause)?;
        if !is_new {
            return Ok(());
        }
        if falls_back {
            return self.keep(swapped);
        }
        self.keep(straight)
    }
}

/// The work that was done so far.
fn work<O: TermOrder>(samples: &Samples<'_>, known: &Known<'_, O>) -> u64 {
    known.work().saturating_add(samples.evaluated() / 4)
}
