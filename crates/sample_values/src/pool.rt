//! `ValuePool`: values by number, and what applications of symbols to them give.

ghost use Rattle.std.specs.Prelude.{◌≡◌, IfOk, IfSome};
ghost use Rattle.spec_core.specs.Sorts.{IsValue};
ghost use Rattle.spec_core.specs.WellSorted.{IsWellSorted};
ghost use Rattle.term_core.specs.declared.ids.SortId.{SortId as SortIdOf};
ghost use Rattle.sample_values.specs.Evaluators.{CanApply, HasValue};

use crate::call_table::CallTable;
use crate::evaluator::{Evaluator, MOST_STEPS};
use crate::known_values::{Known, KnownValues};
use crate::values::Value;
use spec_core::Spec;
use std::alloc::Global;
use std::marker::Model;
use term_core::{OutOfMemory, SortId, SymId, Term};

/// Values by number, each once, and the applications that were made. Contracts see the
/// specification and the bank's cells.
#[derive(Drop)]
pub(crate) struct ValuePool<'a> {
    evaluator: Evaluator<'a>,
    known: KnownValues,
    calls: CallTable,
    evaluated: u64,
}

impl<'a> Model for ValuePool<'a> {
    ghost use Rattle.spec_core.specs.contracts.records.Spec as spec_contract;
    ghost use Rattle.std.specs.Coded.{codes};
    ghost use Rattle.sample_values.specs.Evaluators.{Evaluated};
    ghost use Rattle.sample_values.specs.Pools.{IsPool};

    ghost Value = { Evaluated };

    ghost coded = { Prim.hlevel (codes, spec_contract.the_row.coded) };

    ghost view = { λ p. p.evaluator };

    ghost invariant = { λ p. IsPool p.evaluator p.known };
}

impl<'a> ValuePool<'a> {
    pub(crate) fn new(alloc: Global, spec: &'a Spec) -> Result<ValuePool<'a>, OutOfMemory>
        requires { IsWellSorted spec.now }
        ensures { IfOk result (λ made. made.spec ≡ spec.now) }
    {
        let evaluator = Evaluator::new(alloc, spec)?;
        let calls = CallTable::new(alloc)?;
        Ok(ValuePool {
            evaluator,
            known: KnownValues::new(alloc),
            calls,
            evaluated: 0,
        })
    }

    pub(crate) fn spec(&self) -> &'a Spec
        ensures spec { result.now ≡ self.now.spec }
        ensures fine { IsWellSorted self.now.spec }
    {
        self.evaluator.spec()
    }

    /// How many rule uses calls have cost that weren't known.
    pub(crate) fn evaluated(&self) -> u64 {
        self.evaluated
    }

    /// The value as a term, if the number is that of one of at most 10,000 symbols.
    pub(crate) fn term(&self, alloc: Global, value: Value) -> Result<Option<Term>, OutOfMemory>
        ensures { IfOk result (λ r. IfSome r
            (λ t. (sort : SortIdOf) × IsValue self.now.spec.sig sort t)) }
    {
        match self.known.get(value) {
            Some(known) => self.evaluator.term(alloc, known.place),
            None => Ok(None),
        }
    }

    /// The number of a value of the sort.
    pub(crate) fn insert(
        &mut self,
        alloc: Global,
        value: &Term,
        sort: SortId,
    ) -> Result<Value, OutOfMemory>
        requires { IsValue self.old.spec.sig sort value.now }
        ensures { self.new.spec ≡ self.old.spec }
    {
        let place = self.evaluator.place(alloc, value)?;
        self.number(Known { place, sort })
    }

    /// What the application of the symbol gives, if the values fit its sorts and it gives a value
    /// within the limits. What was asked before isn't evaluated again.
    #[inline(always)]
    pub(crate) fn apply(
        &mut self,
        alloc: Global,
        sym: SymId,
        args: &[Value],
    ) -> Result<Option<Value>, OutOfMemory>
        ensures { self.new.spec ≡ self.old.spec }
    {
        if let Some(answer) = self.calls.find(sym, args) {
            return Ok(answer);
        }
        let answer = self.evaluate(alloc, sym, args)?;
        self.calls.keep(alloc, sym, args, answer)?;
        Ok(answer)
    }

    /// The same, evaluated.
    #[inline(never)]
    fn evaluate(
        &mut self,
        alloc: Global,
        sym: SymId,
        args: &[Value],
    ) -> Result<Option<Value>, OutOfMemory>
        ensures { self.new.spec ≡ self.old.spec }
    {
        let Some(places) = self.places(alloc, sym, args)? else {
            return Ok(None);
        };
        let Some(known) = self.given(alloc, sym, &places)? else {
            return Ok(None);
        };
        if !self.evaluator.is_small(alloc, known.place)? {
            return Ok(None);
        }
        let value = self.number(known)?;
        Ok(Some(value))
    }

    /// The places of the values, if their sorts are those of the symbol's arguments.
    fn places(
        &self,
        alloc: Global,
        sym: SymId,
        args: &[Value],
    ) -> Result<Option<Vec<u32>>, OutOfMemory>
        ensures { IfOk result (λ r. IfSome r
            (λ places. CanApply self.now sym.0 places.items)) }
    {
        let sig = &self.spec().sig;
        if sym.0 >= sig.symbols() {
            return Ok(None);
        }
        let sorts = sig.info(sym).args.as_slice();
        if sorts.len() != args.len() {
            return Ok(None);
        }
        let mut places = Vec::with_capacity(alloc, sorts.len())?;
        for number in 0..sorts.len() {
            let Some(place) = self.place_of(args[number], sorts[number]) else {
                return Ok(None);
            };
            places.push(place)?;
        }
        Ok(Some(places))
    }

    /// The place of the value, if it has the sort.
    #[inline(always)]
    pub(crate) fn place_of(&self, value: Value, sort: SortId) -> Option<u32>
        ensures { IfSome result (λ place. HasValue self.now place sort) }
    {
        let known = self.known.get(value)?;
        if known.sort.0 == sort.0 {
            Some(known.place)
        } else {
            None
        }
    }

    /// The place and the sort of the value that the application gives to the values at these
    /// places.
    fn given(
        &mut self,
        alloc: Global,
        sym: SymId,
        places: &[u32],
    ) -> Result<Option<Known>, OutOfMemory>
        requires { CanApply self.old sym.0 places.now }
        ensures given { IfOk result (λ r. IfSome r (λ k. HasValue self.new k.place k.sort)) }
        ensures spec { self.new.spec ≡ self.old.spec }
    {
        let sort = self.spec().sig.info(sym).result;
        if self.spec().sig.is_constructor(sym) {
            let place = self.evaluator.build(sym, places)?;
            return Ok(Some(Known { place, sort }));
        }
        if self.evaluator.is_full() {
            return Ok(None);
        }
        match self.evaluator.call(alloc, sym, places)? {
            None => {
                self.evaluated = self.evaluated.saturating_add(u64::from(MOST_STEPS));
                Ok(None)
            }
            Some(given) => {
                self.evaluated = self.evaluated.saturating_add(u64::from(given.steps));
                Ok(Some(Known {
                    place: given.place,
                    sort,
                }))
            }
        }
    }

    /// The number of the value of this sort at this place.
    fn number(&mut self, known: Known) -> Result<Value, OutOfMemory>
        requires { HasValue self.old known.place known.sort }
        ensures { self.new.spec ≡ self.old.spec }
    {
        match self.known.find(known.place) {
            Some(value) => Ok(value),
            None => {
                let value = self.known.add(known)?;
                Ok(value)
            }
        }
    }
}
