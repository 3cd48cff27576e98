//! A bank that keeps the numbers of symbols of its values.

ghost use Rattle.std.specs.Prelude.{◌≡◌, ◌+◌, ◌<◌, ◌≤◌, min, ℕ, List, [], Some, IfOk, OnOk, length};
ghost use Rattle.std.specs.Prelude.{map, slice_get};
ghost use Rattle.std.specs.List.{AllByRecursion};
ghost use Rattle.term_core.specs.Tree.{Tree, tree_size, sizes, trees_of};
ghost use Rattle.spec_core.specs.WellSorted.{IsWellSorted};
ghost use Rattle.value_bank.specs.Ground.{IsGround};
ghost use Rattle.value_bank.specs.declared.bank.ValueId.{ValueId};
ghost use Rattle.value_bank.specs.Cells.{cell, IsTerm, AreTerms, AreBelow, AddsCells};
ghost use Rattle.ground_eval.specs.Looked.{most_looked};
ghost use Rattle.ground_eval.specs.Opened.{AreFirstValues, IsPart};
ghost use Rattle.refuter.specs.Sizes.{CanRead, GivesSize, IsSizeBy, IsNoted};
ghost use Rattle.refuter.specs.Tables.{AreRightTables};

use crate::tables::Tables;
use ground_eval::{Part, PartialGoal};
use std::alloc::Global;
use std::marker::Model;
use term_core::{OutOfMemory, Term};
use value_bank::{Bank, TermError, ValueId};

/// Stands for more symbols. Sixteen values of a search have fewer.
const MANY_SYMBOLS: u32 = 4096;

/// A bank of which the numbers of symbols are kept of values that were asked for or made by one
/// symbol. Contracts see the bank's cells.
#[derive(Drop)]
pub(crate) struct SizedBank {
    bank: Bank,
    sizes: Vec<u32>,
}

impl Model for SizedBank {
    ghost use Rattle.std.specs.Prelude.{List};
    ghost use Rattle.value_bank.specs.Cells.{Cell};
    ghost use Rattle.refuter.specs.Sizes.{AreSizes};

    ghost Value = { List Cell };

    ghost view = { λ b. b.bank };

    ghost invariant = { λ b. AreSizes b.bank b.sizes.items };
}

impl SizedBank {
    pub(crate) fn new(alloc: Global) -> Result<SizedBank, OutOfMemory>
        ensures { IfOk result (λ made. made ≡ []) }
    {
        let bank = Bank::new(alloc)?;
        Ok(SizedBank {
            bank,
            sizes: Vec::new(alloc),
        })
    }

    /// How many cells there are.
    pub(crate) fn len(&self) -> usize
        ensures { result ≡ length self.now }
    {
        self.bank.len()
    }

    /// The symbol of the value at a place, and the places of its arguments.
    pub(crate) fn cell(&self, place: u32) -> (u32, &[u32])
        requires { place < length self.now }
        ensures { slice_get self.now place ≡ Some (cell result.0 result.1.now) }
    {
        self.bank.cell(place)
    }

    /// The place of the symbol with arguments at these places.
    pub(crate) fn add(&mut self, sym: u32, args: &[u32]) -> Result<u32, OutOfMemory>
        requires { AreBelow (length self.old) args.now }
        ensures found { IfOk result (λ p. slice_get self.new p ≡ Some (cell sym args.now)) }
        ensures adds { AddsCells self.old self.new }
        ensures few { length self.new ≤ length self.old + 1 }
    {
        let size = size_by(&self.sizes, args);
        let place = self.bank.add(sym, args)?;
        note(&mut self.sizes, place, size)?;
        Ok(place)
    }

    /// The number of symbols of the value at a place, or `bound` if that is less.
    pub(crate) fn size(&mut self, alloc: Global, place: u32, bound: u32) -> Result<u32, OutOfMemory>
        requires there { (t : Tree) × IsTerm self.old place t }
        requires few { bound < 4096 }
        ensures size { IfOk result (λ n. (t : Tree) → IsTerm self.old place t
            → n ≡ min (tree_size t) bound) }
        ensures same { self.new ≡ self.old }
    {
        let known = known_size(&self.sizes, place);
        if known > 0 {
            return Ok(known.min(bound));
        }
        let counted = count_symbols(alloc, &self.bank, place)?;
        note(&mut self.sizes, place, counted)?;
        Ok(counted.min(bound))
    }

    /// The values at these places.
    pub(crate) fn terms(&self, alloc: Global, places: &[u32]) -> Result<Vec<Term>, OutOfMemory>
        requires { CanRead self.now places.now }
        ensures { IfOk result (λ made. AreTerms self.now places.now (trees_of made.items)) }
    {
        read_terms(alloc, &self.bank, places)
    }

    /// Puts values into the bank.
    pub(crate) fn place(&mut self, alloc: Global, values: &[Term]) -> Result<Vec<u32>, OutOfMemory>
        requires { AllByRecursion IsGround values.now }
        ensures placed { IfOk result (λ places.
            AreTerms self.new places.items (trees_of values.now)) }
        ensures adds { AddsCells self.old self.new }
        ensures few { OnOk result
            (length self.new ≤ length self.old + sizes (trees_of values.now)) }
    {
        place_terms(alloc, &mut self.bank, values)
    }

    /// The verdict of a goal under all values that begin with the ones at these places, or a later
    /// variable on which it may depend.
    pub(crate) fn part(
        &mut self,
        alloc: Global,
        prepared: &PartialGoal,
        tables: &mut Tables,
        places: &[u32],
        budget: u32,
    ) -> Result<Part, OutOfMemory>
        requires fine { IsWellSorted prepared.now.spec }
        requires listed { (k : ℕ) × (slice_get prepared.now.spec.goals k ≡ Some prepared.now.goal) }
        requires kept { AreRightTables prepared.now self.old tables.old }
        requires values { (firsts : List Tree) × AreTerms self.old places.now (trees_of firsts)
            × AreFirstValues prepared.now.spec prepared.now.goal firsts }
        ensures part { IfOk result (λ part. (firsts : List Tree)
            → AreTerms self.old places.now (trees_of firsts)
            → IsPart prepared.now.spec prepared.now.goal firsts budget part) }
        ensures adds { AddsCells self.old self.new }
        ensures few { IfOk result (λ _. length self.new
            ≤ length self.old + most_looked prepared.now budget) }
        ensures kept { IfOk result (λ _. AreRightTables prepared.now self.new tables.new) }
    {
        let ids = ids_of(alloc, places)?;
        let (kept, marks) = (&mut tables.kept, &mut tables.marks);
        prepared.verdict_part(alloc, &mut self.bank, kept, marks, &ids, budget)
    }
}

/// The values at these places.
fn read_terms(alloc: Global, bank: &Bank, places: &[u32]) -> Result<Vec<Term>, OutOfMemory>
    requires { CanRead bank.now places.now }
    ensures { IfOk result (λ made. AreTerms bank.now places.now (trees_of made.items)) }
{
    let mut made = Vec::with_capacity(alloc, places.len())?;
    for place in places {
        match bank.term(alloc, ValueId(*place as usize)) {
            Ok(term) => made.push(term)?,
            Err(TermError::Large) => unreachable!(),
            Err(TermError::OutOfMemory) => return Err(OutOfMemory),
        }
    }
    Ok(made)
}

/// Puts values into a bank.
fn place_terms(alloc: Global, bank: &mut Bank, values: &[Term]) -> Result<Vec<u32>, OutOfMemory>
    requires { AllByRecursion IsGround values.now }
    ensures placed { IfOk result (λ places. AreTerms bank.new places.items (trees_of values.now)) }
    ensures adds { AddsCells bank.old bank.new }
    ensures few { OnOk result
        (length bank.new ≤ length bank.old + sizes (trees_of values.now)) }
{
    let mut places = Vec::with_capacity(alloc, values.len())?;
    for value in values {
        let id = bank.value(alloc, value)?;
        places.push(bank.number(id))?;
    }
    Ok(places)
}

/// The places as a bank gives them.
fn ids_of(alloc: Global, places: &[u32]) -> Result<Vec<ValueId>, OutOfMemory>
    ensures { IfOk result (λ ids. map (λ (id : ValueId). id.0) ids.items ≡ places.now) }
{
    let mut ids = Vec::with_capacity(alloc, places.len())?;
    for place in places {
        ids.push(ValueId(*place as usize))?;
    }
    Ok(ids)
}

/// The number that is kept for a place, or 0.
#[inline(always)]
fn known_size(sizes: &[u32], place: u32) -> u32
    ensures { 0 < result → slice_get sizes.now place ≡ Some result }
{
    match sizes.get(place as usize) {
        Some(size) => *size,
        None => 0,
    }
}

/// The number of symbols of a value with arguments at these places, or 0 if one isn't known.
fn size_by(sizes: &[u32], args: &[u32]) -> u32
    ensures { IsSizeBy sizes.now args.now result }
{
    let mut size: u32 = 1;
    for arg in args {
        let known = known_size(sizes, *arg);
        if known == 0 {
            return 0;
        }
        size = size.saturating_add(known).min(MANY_SYMBOLS);
    }
    size
}

/// Keeps the number of symbols of the value at a place.
fn note(sizes: &mut Vec<u32>, place: u32, size: u32) -> Result<(), OutOfMemory>
    ensures { IsNoted sizes.old.items place size sizes.new.items }
{
    while sizes.len() <= place as usize {
        sizes.push(0)?;
    }
    sizes[place as usize] = size;
    Ok(())
}

/// The number of symbols of the value at a place, counted on the value itself.
fn count_symbols(alloc: Global, bank: &Bank, place: u32) -> Result<u32, OutOfMemory>
    requires { place < length bank.now }
    ensures { IfOk result (GivesSize bank.now place) }
{
    match bank.term(alloc, ValueId(place as usize)) {
        Ok(term) => Ok(term.size(MANY_SYMBOLS)),
        Err(TermError::Large) => Ok(MANY_SYMBOLS),
        Err(TermError::OutOfMemory) => Err(OutOfMemory),
    }
}
