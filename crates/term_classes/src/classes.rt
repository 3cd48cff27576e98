//! `Classes`: classes of the terms over some symbols.

use crate::candidates::Candidate;
use crate::class_table::{ClassId, ClassTable};
use crate::drawing::drawn;
use crate::seen_clauses::SeenClauses;
use crate::sorts_in_use::variable_sorts;
use sample_values::{Samples, Value};
use spec_core::Spec;
use std::alloc::Global;
use std::mem;
use term_core::{OutOfMemory, SortId, SymId, Term};

/// How many rows of arguments may come up for each term that is evaluated: most rows that aren't
/// evaluated have too many variables, or make a term that can be rewritten.
const ROWS_A_TERM: u64 = 64;

/// How far classes go.
#[derive(Clone, Copy)]
pub struct ClassBounds {
    /// How many variables there are of each sort but `Bool`.
    pub variables: u32,
    /// How many samples a term is evaluated at.
    pub samples: u32,
    /// The most terms that are evaluated.
    pub terms: u32,
}

/// Classes of the terms over some symbols and a few variables of each sort: the terms of a class
/// have one sort, and one value at each of the samples. They grow by the sizes of terms.
#[derive(Drop)]
pub struct Classes<'a> {
    pub(crate) spec: &'a Spec,
    pub(crate) scope: Vec<SymId>,
    pub(crate) bounds: ClassBounds,
    /// The sorts of the variables, by their numbers.
    pub(crate) sorts: Vec<SortId>,
    /// For each sample a value of each variable.
    pub(crate) drawn: Vec<Vec<Value>>,
    pub(crate) table: ClassTable,
    pub(crate) seen: SeenClauses,
    /// How many terms were evaluated.
    pub(crate) terms: u32,
    /// How many rows of arguments came up.
    pub(crate) rows: u64,
    /// How many candidates were made.
    made: u32,
    /// Candidates of the growth that is going on.
    pub(crate) found: Vec<Candidate>,
}

impl<'a> Classes<'a> {
    /// No classes yet. The values of the variables are drawn here.
    pub fn new(
        alloc: Global,
        spec: &'a Spec,
        samples: &mut Samples<'_>,
        scope: Vec<SymId>,
        bounds: ClassBounds,
    ) -> Result<Classes<'a>, OutOfMemory> {
        let sorts = variable_sorts(alloc, &spec.sig, &scope, bounds.variables)?;
        let drawn = drawn(alloc, samples, &sorts, bounds.samples)?;
        let table = ClassTable::new(alloc)?;
        let seen = SeenClauses::new(alloc)?;
        Ok(Classes {
            spec,
            scope,
            bounds,
            sorts,
            drawn,
            table,
            seen,
            terms: 0,
            rows: 0,
            made: 0,
            found: Vec::new(alloc),
        })
    }

    /// Whether as many terms were evaluated as the bounds allow.
    pub fn is_full(&self) -> bool {
        self.terms >= self.bounds.terms
    }

    /// How many classes there are.
    pub fn len(&self) -> u32 {
        self.table.len()
    }

    /// The representative of the class of this number, in the order of making.
    pub fn representative(&self, number: u32) -> Option<&Term> {
        let own = self.table.representative(ClassId(number))?;
        Some(&own.term)
    }

    /// How many more rows of arguments may come up.
    pub(crate) fn rows_left(&self) -> u64 {
        let most = u64::from(self.bounds.terms).saturating_mul(ROWS_A_TERM);
        most.saturating_sub(self.rows)
    }

    /// Keeps a candidate, which is the next one.
    pub(crate) fn keep(&mut self, candidate: Candidate) -> Result<(), OutOfMemory> {
        let mut candidate = candidate;
        candidate.made = self.made;
        self.made = self.made.saturating_add(1);
        self.found.push(candidate)?;
        Ok(())
    }

    /// The candidates that were kept since the last time.
    pub(crate) fn taken(&mut self, alloc: Global) -> Vec<Candidate> {
        mem::replace(&mut self.found, Vec::new(alloc))
    }
}
