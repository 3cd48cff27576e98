//! `Evaluator`: what applications of symbols to values give, over one bank.

ghost use Rattle.std.specs.Prelude.{◌≡◌, List, [], IfOk, IfSome, map};
ghost use Rattle.term_core.specs.Tree.{Tree};
ghost use Rattle.spec_core.specs.Sig.{IsConstructor};
ghost use Rattle.spec_core.specs.WellSorted.{IsWellSorted};
ghost use Rattle.value_bank.specs.Cells.{IsTerm, AddsCells};
ghost use Rattle.value_bank.specs.Ground.{IsGround};
ghost use Rattle.value_bank.specs.declared.bank.ValueId.{ValueId as ValueIdOf};
ghost use Rattle.sample_values.specs.Evaluators.{CanApply, IsGiven};

use crate::sides::compile_symbols;
use bank_machine::{BankEval, KeptCalls, Machine};
use spec_core::Spec;
use std::alloc::Global;
use std::marker::Model;
use term_core::{OutOfMemory, SymId, Term};
use value_bank::{Bank, TermError, ValueId};

/// The most rule uses of one call.
pub(crate) const MOST_STEPS: u32 = 20_000;

/// A value with more symbols is given up.
const MOST_SYMBOLS: u32 = 400;

/// Calls are given up if the bank has as many cells.
const MANY_CELLS: usize = 1 << 23;

/// The place of a value, and how many rule uses it cost.
#[derive(Clone, Copy)]
pub(crate) struct Given {
    pub(crate) place: u32,
    pub(crate) steps: u32,
}

/// A specification of which the application of each symbol is compiled, and a bank. Contracts see
/// the specification and the bank's cells.
#[derive(Drop)]
pub(crate) struct Evaluator<'a> {
    spec: &'a Spec,
    machine: Machine<'a>,
    sides: Vec<usize>,
    bank: Bank,
    kept: KeptCalls,
}

impl<'a> Model for Evaluator<'a> {
    ghost use Rattle.spec_core.specs.contracts.records.Spec as spec_contract;
    ghost use Rattle.std.specs.Coded.{codes};
    ghost use Rattle.sample_values.specs.Evaluators.{Evaluated, evaluated, IsEvaluator};

    ghost Value = { Evaluated };

    ghost coded = { Prim.hlevel (codes, spec_contract.the_row.coded) };

    ghost view = { λ e. evaluated e.spec.now e.bank };

    ghost invariant = { λ e. IsEvaluator e.spec.now e.machine e.sides.items e.bank e.kept };
}

impl<'a> Evaluator<'a> {
    pub(crate) fn new(alloc: Global, spec: &'a Spec) -> Result<Evaluator<'a>, OutOfMemory>
        requires { IsWellSorted spec.now }
        ensures spec { IfOk result (λ made. made.spec ≡ spec.now) }
        ensures none { IfOk result (λ made. made.cells ≡ []) }
    {
        let (machine, sides) = compile_symbols(alloc, spec)?;
        let bank = Bank::new(alloc)?;
        Ok(Evaluator {
            spec,
            machine,
            sides,
            bank,
            kept: KeptCalls::new(alloc),
        })
    }

    pub(crate) fn spec(&self) -> &'a Spec
        ensures spec { result.now ≡ self.now.spec }
        ensures fine { IsWellSorted self.now.spec }
    {
        self.spec
    }

    /// Whether calls are given up, as the bank has many cells.
    pub(crate) fn is_full(&self) -> bool {
        self.bank.len() >= MANY_CELLS
    }

    /// The value at a place, if it has at most 10,000 symbols.
    pub(crate) fn term(&self, alloc: Global, place: u32) -> Result<Option<Term>, OutOfMemory>
        requires { (t : Tree) × IsTerm self.now.cells place t }
        ensures { IfOk result (λ r. IfSome r (λ t. IsTerm self.now.cells place t)) }
    {
        match self.bank.term(alloc, ValueId(place as usize)) {
            Ok(term) => Ok(Some(term)),
            Err(TermError::Large) => Ok(None),
            Err(TermError::OutOfMemory) => Err(OutOfMemory),
        }
    }

    /// The place of a value.
    pub(crate) fn place(&mut self, alloc: Global, value: &Term) -> Result<u32, OutOfMemory>
        requires { IsGround value.now }
        ensures placed { IfOk result (λ place. IsTerm self.new.cells place value.now) }
        ensures spec { self.new.spec ≡ self.old.spec }
        ensures adds { AddsCells self.old.cells self.new.cells }
    {
        let id = self.bank.value(alloc, value)?;
        Ok(self.bank.number(id))
    }

    /// The value that the application of a constructor gives to the values at these places. It
    /// costs nothing.
    pub(crate) fn build(&mut self, sym: SymId, places: &[u32]) -> Result<u32, OutOfMemory>
        requires can { CanApply self.old sym.0 places.now }
        requires constructor { IsConstructor self.old.spec.sig sym.0 }
        ensures given { IfOk result (IsGiven self.new sym.0) }
        ensures spec { self.new.spec ≡ self.old.spec }
        ensures adds { AddsCells self.old.cells self.new.cells }
    {
        self.bank.add(sym.0, places)
    }

    /// The value that the call of a function gives with the values at these places, if it gives
    /// one within the budget.
    pub(crate) fn call(
        &mut self,
        alloc: Global,
        sym: SymId,
        places: &[u32],
    ) -> Result<Option<Given>, OutOfMemory>
        requires { CanApply self.old sym.0 places.now }
        ensures given { IfOk result (λ r. IfSome r (λ given. IsGiven self.new sym.0 given.place)) }
        ensures spec { self.new.spec ≡ self.old.spec }
        ensures adds { AddsCells self.old.cells self.new.cells }
    {
        let side = self.sides[sym.0 as usize];
        let ids = ids_of(alloc, places)?;
        let (bank, kept) = (&mut self.bank, &mut self.kept);
        match self.machine.run(alloc, bank, kept, side, &ids, MOST_STEPS)? {
            BankEval::Value { id, steps } => {
                let place = self.bank.number(id);
                Ok(Some(Given { place, steps }))
            }
            BankEval::Spent => Ok(None),
        }
    }

    /// Whether the value at a place isn't given up for its number of symbols.
    pub(crate) fn is_small(&self, alloc: Global, place: u32) -> Result<bool, OutOfMemory>
        requires { (t : Tree) × IsTerm self.now.cells place t }
    {
        let mut pending = Vec::new(alloc);
        pending.push(place)?;
        for _symbol in 0..MOST_SYMBOLS {
            let Some(next) = pending.pop() else {
                return Ok(true);
            };
            let (_, args) = self.bank.cell(next);
            pending.extend_from_slice(args)?;
        }
        Ok(pending.is_empty())
    }
}

/// The places as a bank gives them.
fn ids_of(alloc: Global, places: &[u32]) -> Result<Vec<ValueId>, OutOfMemory>
    ensures { IfOk result (λ ids. map (λ (id : ValueIdOf). id.0) ids.items ≡ places.now) }
{
    let mut ids = Vec::with_capacity(alloc, places.len())?;
    for place in places {
        ids.push(ValueId(*place as usize))?;
    }
    Ok(ids)
}
