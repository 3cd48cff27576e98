//! From a row of values to the next, by their places.

ghost use Rattle.std.specs.Prelude.{◌≡◌, ◌+◌, ◌<◌, ◌≤◌, IfOk, OnOk, List, length, slice_get, take};
ghost use Rattle.std.specs.Prelude.{drop};
ghost use Rattle.std.specs.List.{AllByRecursion, Contains};
ghost use Rattle.term_core.specs.Tree.{Tree, trees_of};
ghost use Rattle.spec_core.specs.Sig.{IsSort, SortsAreInRange};
ghost use Rattle.spec_core.specs.WellSorted.{HasFewArguments};
ghost use Rattle.refuter.specs.Bounded.{values_within, rows_within};
ghost use Rattle.refuter.specs.Fewest.{IsRowOf, fewest};
ghost use Rattle.refuter.specs.After.{room_before, made_from, values_after, rows_after};
ghost use Rattle.refuter.specs.Moves.{IsPlaceOf, GoesOn};
ghost use Rattle.refuter.specs.Symbols.{value_symbols, row_symbols};
ghost use Rattle.value_bank.specs.Cells.{IsTerm, AreTerms, AddsCells};

use crate::fewest::{MOST_SYMBOLS, fewest_sizes, total_size};
use crate::sized_bank::SizedBank;
use spec_core::Signature;
use std::alloc::Global;
use std::marker::Model;
use term_core::{OutOfMemory, Seq, SortId, SymId, front};

/// Goes from one row of values to the next, in the order of a search. Contracts see the signature.
/// The last value that can move does, and the values after it begin again (Knuth, The Art of
/// Computer Programming 4A, 2011, 7.2.1.1, Algorithm M), inside the values too. A value may take
/// what the bound leaves if the values before it are counted in full and those after it with
/// their fewest symbols, so that each row that is begun can be completed. Values are in a bank,
/// and a row has their places: a step makes no more than the values that move.
#[derive(Drop)]
pub(crate) struct Odometer<'a> {
    sig: &'a Signature,
    sizes: Seq<Seq<u32>>,
}

impl<'a> Model for Odometer<'a> {
    ghost use Rattle.spec_core.specs.Sig.{Sig};

    ghost Value = { Sig };

    ghost view = { λ o. o.sig.now };

    ghost use Rattle.refuter.specs.Moves.{IsOdometer};

    ghost invariant = { λ o. IsOdometer o.sig.now o.sizes };
}

impl<'a> Odometer<'a> {
    pub(crate) fn new(alloc: Global, sig: &'a Signature) -> Result<Odometer<'a>, OutOfMemory>
        requires in_range { SortsAreInRange sig.now }
        requires arities { HasFewArguments sig.now }
        ensures { IfOk result (λ o. o ≡ sig.now) }
    {
        let sizes = fewest_sizes(alloc, sig)?;
        Ok(Odometer { sig, sizes })
    }

    /// The fewest symbols of values of this depth, by sort.
    fn sizes_at(&self, depth: u32) -> &[u32]
        ensures { IsRowOf self.now depth result.now }
    {
        let rows = self.sizes.as_slice();
        rows[(depth as usize).min(rows.len() - 1)].as_slice()
    }

    fn fewest(&self, depth: u32, sort: SortId) -> u32
        requires { IsSort self.now sort }
        ensures { result ≡ fewest self.now depth sort }
    {
        self.sizes_at(depth)[sort.0 as usize]
    }

    /// What a first value may take of the bound, if the others are as small as can be.
    fn room_before(&self, depth: u32, others: &[SortId], bound: u32) -> u32
        requires sorts { AllByRecursion (IsSort self.now) others.now }
        requires few { bound < 4096 }
        ensures { result ≡ room_before self.now depth others.now bound }
    {
        bound.saturating_sub(total_size(self.sizes_at(depth), others))
    }

    /// Appends the places of the first row of values of the sorts, and says whether there is one.
    #[cycle(first)]
    pub(crate) fn push_first(
        &self,
        alloc: Global,
        bank: &mut SizedBank,
        sorts: &[SortId],
        depth: u32,
        bound: u32,
        row: &mut Vec<u32>,
    ) -> Result<bool, OutOfMemory>
        requires sorts { AllByRecursion (IsSort self.now) sorts.now }
        requires few { bound < 4096 }
        ensures goes { IfOk result (GoesOn bank.new row.old.items
            (slice_get (rows_within self.now depth sorts.now bound) 0) row.new.items) }
        ensures adds { AddsCells bank.old bank.new }
        ensures few { OnOk result (length bank.new ≤ length bank.old
            + row_symbols (slice_get (rows_within self.now depth sorts.now bound) 0)) }
    {
        let Some((sort, others)) = front(sorts) else {
            return Ok(true);
        };
        let room = self.room_before(depth, others, bound);
        match self.first_value(alloc, bank, *sort, depth, room, row)? {
            None => Ok(false),
            Some(value) => {
                let size = bank.size(alloc, value, bound)?;
                row.push(value)?;
                self.push_first(alloc, bank, others, depth, bound - size, row)
            }
        }
    }

    /// The place of the first value of the sort with at most this depth and this many symbols. It
    /// isn't looked for if the fewest symbols are more: each constructor would be tried at each
    /// depth. The row serves as room for arguments.
    #[cycle(first)]
    fn first_value(
        &self,
        alloc: Global,
        bank: &mut SizedBank,
        sort: SortId,
        depth: u32,
        bound: u32,
        row: &mut Vec<u32>,
    ) -> Result<Option<u32>, OutOfMemory>
        requires sort { IsSort self.now sort }
        requires few { bound < 4096 }
        ensures placed { IfOk result (IsPlaceOf bank.new
            (slice_get (values_within self.now depth sort bound) 0)) }
        ensures same { OnOk result (row.new.items ≡ row.old.items) }
        ensures adds { AddsCells bank.old bank.new }
        ensures few { OnOk result (length bank.new ≤ length bank.old
            + value_symbols (slice_get (values_within self.now depth sort bound) 0)) }
    {
        if self.fewest(depth, sort) > bound {
            return Ok(None);
        }
        self.first_made(alloc, bank, sort, depth - 1, bound, 0, row)
    }

    /// The place of the first application of at most this many symbols of a constructor of the
    /// sort, from this number on, to arguments of at most this depth.
    #[cycle(first)]
    fn first_made(
        &self,
        alloc: Global,
        bank: &mut SizedBank,
        sort: SortId,
        depth: u32,
        bound: u32,
        from: u32,
        row: &mut Vec<u32>,
    ) -> Result<Option<u32>, OutOfMemory>
        ensures placed { IfOk result (IsPlaceOf bank.new
            (slice_get (made_from self.now depth sort bound from) 0)) }
        ensures same { OnOk result (row.new.items ≡ row.old.items) }
        ensures adds { AddsCells bank.old bank.new }
        ensures few { OnOk result (length bank.new ≤ length bank.old
            + value_symbols (slice_get (made_from self.now depth sort bound from) 0)) }
    {
        let room = bound.min(MOST_SYMBOLS).saturating_sub(1);
        let start = row.len();
        for number in from..self.sig.constructors() {
            let info = self.sig.info(SymId(number));
            if info.result.0 != sort.0 {
                continue;
            }
            if self.push_first(alloc, bank, info.args.as_slice(), depth, room, row)? {
                let made = bank.add(number, &row[start..])?;
                row.truncate(start);
                return Ok(Some(made));
            }
        }
        Ok(None)
    }

    /// Moves the values from this place on to the next row of the sorts, and says whether there is
    /// one. If there is none, it takes them away.
    #[cycle(next)]
    pub(crate) fn advance(
        &self,
        alloc: Global,
        bank: &mut SizedBank,
        sorts: &[SortId],
        depth: u32,
        bound: u32,
        row: &mut Vec<u32>,
        place: usize,
    ) -> Result<bool, OutOfMemory>
        requires sorts { AllByRecursion (IsSort self.now) sorts.now }
        requires few { bound < 4096 }
        requires place { place ≤ length row.old.items }
        requires listed { (values : List Tree)
            × AreTerms bank.old (drop place row.old.items) (trees_of values)
            × Contains (rows_within self.now depth sorts.now bound) values }
        ensures goes { IfOk result (λ r. (values : List Tree)
            → AreTerms bank.old (drop place row.old.items) (trees_of values)
            → GoesOn bank.new (take place row.old.items)
            (slice_get (rows_after self.now depth sorts.now bound values) 0) row.new.items r) }
        ensures adds { AddsCells bank.old bank.new }
        ensures few { OnOk result ((values : List Tree)
            → AreTerms bank.old (drop place row.old.items) (trees_of values)
            → length bank.new ≤ length bank.old
            + row_symbols (slice_get (rows_after self.now depth sorts.now bound values) 0)) }
    {
        let Some((sort, others)) = front(sorts) else {
            return Ok(false);
        };
        let size = bank.size(alloc, row[place], bound)?;
        if self.advance(alloc, bank, others, depth, bound - size, row, place + 1)? {
            return Ok(true);
        }
        let Some(value) = row.pop() else {
            unreachable!();
        };
        let room = self.room_before(depth, others, bound);
        match self.next_value(alloc, bank, *sort, depth, room, value, row)? {
            None => Ok(false),
            Some(next) => {
                let taken = bank.size(alloc, next, bound)?;
                row.push(next)?;
                self.push_first(alloc, bank, others, depth, bound - taken, row)
            }
        }
    }

    /// The place of the value of the sort after the one at this place.
    #[cycle(next)]
    fn next_value(
        &self,
        alloc: Global,
        bank: &mut SizedBank,
        sort: SortId,
        depth: u32,
        bound: u32,
        value: u32,
        row: &mut Vec<u32>,
    ) -> Result<Option<u32>, OutOfMemory>
        requires { (t : Tree) × IsTerm bank.old value t
            × Contains (values_within self.now depth sort bound) t }
        ensures placed { IfOk result (λ r. (t : Tree) → IsTerm bank.old value t
            → IsPlaceOf bank.new (slice_get (values_after self.now depth sort bound t) 0) r) }
        ensures same { OnOk result (row.new.items ≡ row.old.items) }
        ensures adds { AddsCells bank.old bank.new }
        ensures few { OnOk result ((t : Tree) → IsTerm bank.old value t
            → length bank.new ≤ length bank.old
            + value_symbols (slice_get (values_after self.now depth sort bound t) 0)) }
    {
        let start = row.len();
        let (sym, args) = bank.cell(value);
        row.extend_from_slice(args)?;
        let sorts = self.sig.info(SymId(sym)).args.as_slice();
        let room = bound.min(MOST_SYMBOLS).saturating_sub(1);
        if self.advance(alloc, bank, sorts, depth - 1, room, row, start)? {
            let made = bank.add(sym, &row[start..])?;
            row.truncate(start);
            return Ok(Some(made));
        }
        self.first_made(alloc, bank, sort, depth - 1, bound, sym + 1, row)
    }
}
