//! `Samples`: values to try clauses on.

ghost use Rattle.std.specs.Prelude.{◌≡◌, ◌<◌, IfOk, IfSome};
ghost use Rattle.spec_core.specs.Sorts.{IsValue};
ghost use Rattle.spec_core.specs.WellSorted.{IsWellSorted};
ghost use Rattle.term_core.specs.declared.ids.SortId.{SortId as SortIdOf};

use crate::depths::least_depths;
use crate::pool::ValuePool;
use crate::random_numbers::RandomNumbers;
use crate::values::Value;
use spec_core::{Spec, boolean};
use std::alloc::Global;
use std::marker::Model;
use term_core::{OutOfMemory, SortId, SymId, Term};

/// Values to try clauses on. Contracts see the specification and the bank's cells.
#[derive(Drop)]
pub struct Samples<'a> {
    pub(crate) pool: ValuePool<'a>,
    pub(crate) random: RandomNumbers,
    /// By sort, the least depth of a value.
    pub(crate) depths: Vec<u32>,
    /// By sort, a value of the fewest symbols.
    pub(crate) least: Vec<Value>,
    /// By sort, its values of small depth, if they were asked for.
    pub(crate) small: Vec<Vec<Value>>,
    yes: Value,
    no: Value,
}

impl<'a> Model for Samples<'a> {
    ghost use Rattle.spec_core.specs.contracts.records.Spec as spec_contract;
    ghost use Rattle.std.specs.Coded.{codes};
    ghost use Rattle.sample_values.specs.Evaluators.{Evaluated};

    ghost Value = { Evaluated };

    ghost coded = { Prim.hlevel (codes, spec_contract.the_row.coded) };

    ghost view = { λ s. s.pool };
}

impl<'a> Samples<'a> {
    /// Samples of the specification's sorts.
    pub fn new(alloc: Global, spec: &'a Spec) -> Result<Samples<'a>, OutOfMemory>
        requires { IsWellSorted spec.now }
        ensures { IfOk result (λ made. made.spec ≡ spec.now) }
    {
        let mut pool = ValuePool::new(alloc, spec)?;
        let yes = insert_boolean(alloc, &mut pool, true)?;
        let no = insert_boolean(alloc, &mut pool, false)?;
        let least = least_values(alloc, &mut pool)?;
        let depths = least_depths(alloc, &spec.sig)?;
        let small = no_lists(alloc, spec.sig.sorts())?;
        Ok(Samples {
            pool,
            random: RandomNumbers::new(),
            depths,
            least,
            small,
            yes,
            no,
        })
    }

    pub fn spec(&self) -> &'a Spec
        ensures spec { result.now ≡ self.now.spec }
        ensures fine { IsWellSorted self.now.spec }
    {
        self.pool.spec()
    }

    /// Begins the random numbers again.
    pub fn restart(&mut self) {
        self.random = RandomNumbers::new();
    }

    /// A random number below this one.
    pub fn number(&mut self, bound: u32) -> u32
        requires { 0 < bound }
        ensures { result < bound }
    {
        self.random.below(bound)
    }

    /// How many rule uses calls have cost so far. A call that was asked for again costs nothing.
    pub fn evaluated(&self) -> u64 {
        self.pool.evaluated()
    }

    /// The value `true` or `false`.
    pub fn boolean(&self, value: bool) -> Value {
        if value { self.yes } else { self.no }
    }

    /// What the application of the symbol gives, within 20,000 rule uses and 400 symbols. None also
    /// if the values don't have the sorts of its arguments.
    pub fn apply(
        &mut self,
        alloc: Global,
        sym: SymId,
        args: &[Value],
    ) -> Result<Option<Value>, OutOfMemory> {
        self.pool.apply(alloc, sym, args)
    }

    /// The value that the term gives if the variable n has the value at place n of `env`. Each
    /// application in it has the limits of `apply`.
    pub fn value(
        &mut self,
        alloc: Global,
        term: &Term,
        env: &[Value],
    ) -> Result<Option<Value>, OutOfMemory> {
        let mut row = Vec::new(alloc);
        self.pool.value(alloc, term, env, &mut row)
    }

    /// Whether the number is that of a value of the sort.
    pub(crate) fn has_sort(&self, value: Value, sort: SortId) -> bool {
        self.pool.place_of(value, sort).is_some()
    }

    /// The value as a term, if the number is that of one.
    pub fn term(&self, alloc: Global, value: Value) -> Result<Option<Term>, OutOfMemory>
        ensures { IfOk result (λ r. IfSome r
            (λ t. (sort : SortIdOf) × IsValue self.now.spec.sig sort t)) }
    {
        self.pool.term(alloc, value)
    }

    /// A value of the sort, of the fewest symbols.
    pub(crate) fn least(&self, sort: SortId) -> Value {
        match self.least.as_slice().get(sort.0 as usize) {
            Some(value) => *value,
            None => self.yes,
        }
    }

    /// How many small values of the sort are listed.
    pub(crate) fn count_small(&self, sort: SortId) -> usize {
        match self.small.as_slice().get(sort.0 as usize) {
            Some(values) => values.len(),
            None => 0,
        }
    }

    /// The small value of the sort with this number, if it is listed.
    pub(crate) fn small_at(&self, sort: SortId, number: usize) -> Option<Value> {
        let values = self.small.as_slice().get(sort.0 as usize)?;
        let value = values.as_slice().get(number)?;
        Some(*value)
    }

    /// Lists the small values of the sort.
    pub(crate) fn put_small(&mut self, sort: SortId, values: Vec<Value>) {
        let place = sort.0 as usize;
        if place < self.small.len() {
            self.small[place] = values;
        }
    }
}

/// The number of `true` or `false`.
fn insert_boolean(alloc: Global, pool: &mut ValuePool, value: bool) -> Result<Value, OutOfMemory>
    ensures { pool.new.spec ≡ pool.old.spec }
{
    // Where the specification is read it is known that it is well sorted.
    let _spec = pool.spec();
    let term = boolean(alloc, value);
    pool.insert(alloc, &term, SortId(0))
}

/// By sort, a value of the fewest symbols.
fn least_values(alloc: Global, pool: &mut ValuePool) -> Result<Vec<Value>, OutOfMemory>
    ensures { pool.new.spec ≡ pool.old.spec }
{
    let spec = pool.spec();
    let mut least = Vec::new(alloc);
    for sort in 0..spec.sig.sorts() {
        let small = spec.sig.small(alloc, SortId(sort))?;
        let value = pool.insert(alloc, &small, SortId(sort))?;
        least.push(value)?;
    }
    Ok(least)
}

/// This many empty lists.
fn no_lists(alloc: Global, count: u32) -> Result<Vec<Vec<Value>>, OutOfMemory> {
    let mut lists = Vec::new(alloc);
    for _list in 0..count {
        lists.push(Vec::new(alloc))?;
    }
    Ok(lists)
}
