//! The walk over substitutions that begin alike.

ghost use Rattle.std.specs.Prelude.{◌≡◌, ◌+◌, ◌*◌, ◌^◌, ◌<◌, ◌≤◌, ◌++◌, max, List, Some, None};
ghost use Rattle.std.specs.Prelude.{IfOk, OnOk, IfSome, length, slice_get};
ghost use Rattle.term_core.specs.Tree.{Tree, trees_of};
ghost use Rattle.term_core.specs.declared.ids.SortId.{SortId as SortIdOf};
ghost use Rattle.spec_core.specs.WellSorted.{sorts_of};
ghost use Rattle.spec_core.specs.Overlap.{NoOverlap};
ghost use Rattle.spec_core.specs.Groups.{GroupsAreWhole};
ghost use Rattle.spec_core.specs.Order.{substitutions};
ghost use Rattle.value_bank.specs.Cells.{AreTerms, AddsCells};
ghost use Rattle.ground_eval.specs.Looked.{most_looked};
ghost use Rattle.ground_eval.specs.Opened.{Partial};
ghost use Rattle.refuter.specs.Finds.{Finds, IsFalse};
ghost use Rattle.refuter.specs.Blocks.{rows_of, block};
ghost use Rattle.refuter.specs.Looks.{IsAnswerOf, IsTally};
ghost use Rattle.refuter.specs.Sizes.{CanRead};
ghost use Rattle.refuter.specs.Tables.{AreRightTables};
ghost use Rattle.refuter.specs.Memory.{most_cells, HasAtMost, LeavesFew};
ghost use Rattle.refuter.specs.Walk.{spec_of, goal_of, IsWalk, AreKept, HasBegun, HasRows};
ghost use Rattle.refuter.specs.Walk.{HaveVerdict, Knows, LooksAt, StandsAgain};

use crate::answers::Search;
use crate::odometer::Odometer;
use crate::parts::{Asked, Look, Tally};
use crate::sized_bank::SizedBank;
use crate::tables::Tables;
use ground_eval::{Part, PartialGoal, Verdict};
use std::alloc::Global;
use term_core::{OutOfMemory, SortId, Terms};

/// A search begins its bank again, between two looks, if it has more cells than these.
const MANY_CELLS: usize = 1 << 18;

/// A block of fewer members isn't asked for its verdict: to ask for that of each member is as fast.
const FEW_MEMBERS: u32 = 10;

/// Stands for a number of members that isn't known.
const UNKNOWN: u32 = u32::MAX;

/// A walk over the members of a goal's substitutions. The members that begin with the same values
/// are a block. If they have one verdict, they are passed over in one turn, and else the values
/// of the next variables are gone through, up to one on which the verdict may depend.
#[derive(Drop)]
pub(crate) struct Walk<'a> {
    pub(crate) prepared: &'a PartialGoal<'a>,
    pub(crate) odometer: &'a Odometer<'a>,
    /// By the number of values that are left: how many members a block has, if it is known.
    pub(crate) sizes: &'a [u32],
    pub(crate) depth: u32,
    pub(crate) bound: u32,
    pub(crate) tries: u32,
    pub(crate) budget: u32,
}

impl<'a> Walk<'a> {
    /// Looks for the first counterexample.
    pub(crate) fn search(&self, alloc: Global, sorts: &[SortId]) -> Result<Search, OutOfMemory>
        requires walk { IsWalk self.now }
        requires sorts { sorts.now ≡ sorts_of (goal_of self.now).vars }
        ensures finds { IfOk result (λ r. NoOverlap (spec_of self.now)
            → GroupsAreWhole (spec_of self.now)
            → Finds (spec_of self.now) (goal_of self.now) self.now.budget self.now.tries
            (substitutions (spec_of self.now) (goal_of self.now) self.now.depth) r) }
        ensures found { IfOk result (IsFalse (spec_of self.now) (goal_of self.now) self.now.tries
            (substitutions (spec_of self.now) (goal_of self.now) self.now.depth)) }
    {
        let mut bank = SizedBank::new(alloc)?;
        let mut row = Vec::new(alloc);
        let (depth, bound) = (self.depth, self.bound);
        let some = self
            .odometer
            .push_first(alloc, &mut bank, sorts, depth, bound, &mut row)?;
        if !some {
            return Ok(Search::NotFound {
                tried: 0,
                skipped: 0,
                cut: false,
            });
        }
        row.clear();
        let mut tables = Tables::new(alloc);
        let mut tally = Tally {
            tried: 0,
            skipped: 0,
        };
        let look = self.look(alloc, sorts, &mut bank, &mut tables, &mut row, &mut tally)?;
        Ok(answer(look, &tally))
    }

    /// Looks at the block of the row, with values of these sorts left. However large the bank
    /// was, it has at most 2^18 cells afterwards, and what one verdict may add, and one row more
    /// if the look ends before the block does; it stays as it was if no try is left. So the
    /// number of tries doesn't count.
    #[cycle(look)]
    fn look(
        &self,
        alloc: Global,
        sorts: &[SortId],
        bank: &mut SizedBank,
        tables: &mut Tables,
        row: &mut Vec<u32>,
        tally: &mut Tally,
    ) -> Result<Look, OutOfMemory>
        requires walk { IsWalk self.now }
        requires kept { AreKept self.now bank.old tables.old }
        requires begun { (firsts : List Tree)
            × HasBegun self.now bank.old row.old.items sorts.now firsts }
        requires some { HasRows self.now sorts.now }
        requires tally { IsTally self.now.tries tally.old }
        ensures looks { IfOk result (LooksAt self.now bank.old row.old.items sorts.now
            tally.old tally.new) }
        ensures stays { IfOk result (StandsAgain bank.old row.old.items bank.new row.new.items) }
        ensures kept { IfOk result (λ _. AreKept self.now bank.new tables.new) }
        ensures few { IfOk result (LeavesFew self.now bank.old bank.new) }
    {
        if tally.tried == self.tries {
            return Ok(Look::Cut);
        }
        make_room(alloc, bank, tables, row)?;
        let asked = self.ask(alloc, sorts, bank, tables, row)?;
        self.look_as(alloc, sorts, asked, bank, tables, row, tally)
    }

    /// Looks at the block of the row, of which this is known.
    #[cycle(look)]
    fn look_as(
        &self,
        alloc: Global,
        sorts: &[SortId],
        asked: Asked,
        bank: &mut SizedBank,
        tables: &mut Tables,
        row: &mut Vec<u32>,
        tally: &mut Tally,
    ) -> Result<Look, OutOfMemory>
        requires walk { IsWalk self.now }
        requires kept { AreKept self.now bank.old tables.old }
        requires begun { (firsts : List Tree)
            × HasBegun self.now bank.old row.old.items sorts.now firsts
            × Knows self.now firsts sorts.now asked }
        requires some { HasRows self.now sorts.now }
        requires tally { IsTally self.now.tries tally.old }
        requires more { tally.old.tried < self.now.tries }
        ensures looks { IfOk result (LooksAt self.now bank.old row.old.items sorts.now
            tally.old tally.new) }
        ensures stays { IfOk result (StandsAgain bank.old row.old.items bank.new row.new.items) }
        ensures kept { IfOk result (λ _. AreKept self.now bank.new tables.new) }
        ensures few { IfOk result
            (HasAtMost self.now (max (length bank.old) (most_cells self.now)) bank.new) }
    {
        match asked {
            Asked::Block { verdict, size } => {
                self.pass(alloc, sorts, verdict, size, bank, row, tally)
            }
            Asked::Split(count) => {
                let (firsts, others) = sorts.split_at(count);
                self.look_through(alloc, firsts, others, bank, tables, row, tally)
            }
        }
    }

    /// Looks at the block of the row by the values of the first sorts.
    #[cycle(look)]
    fn look_through(
        &self,
        alloc: Global,
        firsts: &[SortId],
        others: &[SortId],
        bank: &mut SizedBank,
        tables: &mut Tables,
        row: &mut Vec<u32>,
        tally: &mut Tally,
    ) -> Result<Look, OutOfMemory>
        requires walk { IsWalk self.now }
        requires kept { AreKept self.now bank.old tables.old }
        requires begun { (values : List Tree) × HasBegun self.now bank.old row.old.items
            (firsts.now ++ others.now) values }
        requires some { HasRows self.now others.now }
        requires tally { IsTally self.now.tries tally.old }
        ensures looks { IfOk result (LooksAt self.now bank.old row.old.items
            (firsts.now ++ others.now) tally.old tally.new) }
        ensures stays { IfOk result (StandsAgain bank.old row.old.items bank.new row.new.items) }
        ensures kept { IfOk result (λ _. AreKept self.now bank.new tables.new) }
        ensures few { IfOk result
            (HasAtMost self.now (max (length bank.old) (most_cells self.now)) bank.new) }
    {
        let (odometer, depth, bound) = (self.odometer, self.depth, self.bound);
        let start = row.len();
        let mut more = odometer.push_first(alloc, bank, firsts, depth, bound, row)?;
        while more {
            match self.look(alloc, others, bank, tables, row, tally)? {
                Look::Whole => {}
                Look::Cut => return Ok(Look::Cut),
                Look::Found(values) => return Ok(Look::Found(values)),
            }
            more = odometer.advance(alloc, bank, firsts, depth, bound, row, start)?;
        }
        Ok(Look::Whole)
    }

    /// The verdict of all members of the row's block, and how many there are; or how many more
    /// values are to be fixed before it is asked again.
    fn ask(
        &self,
        alloc: Global,
        sorts: &[SortId],
        bank: &mut SizedBank,
        tables: &mut Tables,
        row: &[u32],
    ) -> Result<Asked, OutOfMemory>
        requires walk { IsWalk self.now }
        requires kept { AreKept self.now bank.old tables.old }
        requires begun { (firsts : List Tree)
            × HasBegun self.now bank.old row.now sorts.now firsts }
        ensures asked { IfOk result (λ r. (firsts : List Tree)
            → AreTerms bank.old row.now (trees_of firsts)
            → Knows self.now firsts sorts.now r) }
        ensures adds { AddsCells bank.old bank.new }
        ensures kept { IfOk result (λ _. AreKept self.now bank.new tables.new) }
        ensures few { IfOk result (λ _. length bank.new
            ≤ length bank.old + most_looked self.now.prepared.now self.now.budget) }
    {
        let left = sorts.len();
        let Some(size) = self.size(sorts) else {
            return Ok(Asked::Split(1));
        };
        if size < FEW_MEMBERS && left > 0 {
            return Ok(Asked::Split(left));
        }
        match bank.part(alloc, self.prepared, tables, row, self.budget)? {
            Part::All(verdict) => Ok(Asked::Block { verdict, size }),
            Part::Looks(var) => {
                let count = var.0 as usize + 1 - row.len();
                Ok(Asked::Split(count))
            }
        }
    }

    /// How many rows of values of these last sorts there are, if that is known.
    fn size(&self, sorts: &[SortId]) -> Option<u32>
        requires walk { IsWalk self.now }
        requires last { (before : List SortIdOf)
            × (before ++ sorts.now ≡ sorts_of (goal_of self.now).vars) }
        ensures size { IfSome result (λ n. n
            ≡ length (rows_of (spec_of self.now).sig self.now.depth sorts.now)) }
        ensures none { result ≡ None → 0 < length sorts.now }
    {
        if sorts.is_empty() {
            return Some(1);
        }
        match self.sizes.get(sorts.len()) {
            Some(size) if *size < UNKNOWN => Some(*size),
            _ => None,
        }
    }

    /// Passes over the row's block, of which all members have the verdict, or finds its first one.
    fn pass(
        &self,
        alloc: Global,
        sorts: &[SortId],
        verdict: Verdict,
        size: u32,
        bank: &mut SizedBank,
        row: &mut Vec<u32>,
        tally: &mut Tally,
    ) -> Result<Look, OutOfMemory>
        requires walk { IsWalk self.now }
        requires begun { (firsts : List Tree)
            × HasBegun self.now bank.old row.old.items sorts.now firsts
            × HaveVerdict self.now firsts verdict }
        requires size { size
            ≡ length (rows_of (spec_of self.now).sig self.now.depth sorts.now) }
        requires some { 0 < size }
        requires tally { IsTally self.now.tries tally.old }
        requires more { tally.old.tried < self.now.tries }
        ensures looks { IfOk result (LooksAt self.now bank.old row.old.items sorts.now
            tally.old tally.new) }
        ensures stays { IfOk result (λ r. r ≡ Look.Whole → row.new.items ≡ row.old.items) }
        ensures adds { AddsCells bank.old bank.new }
        ensures few { IfOk result (HasAtMost self.now (length bank.old) bank.new) }
    {
        let taken = size.min(self.tries - tally.tried);
        let skipped = match verdict {
            Verdict::Fails => {
                let values = self.first(alloc, sorts, bank, row)?;
                return Ok(Look::Found(values));
            }
            Verdict::Spent => taken,
            Verdict::Holds => 0,
        };
        tally.tried += taken;
        tally.skipped += skipped;
        if taken < size {
            Ok(Look::Cut)
        } else {
            Ok(Look::Whole)
        }
    }

    /// The values of the first member of the row's block.
    fn first(
        &self,
        alloc: Global,
        sorts: &[SortId],
        bank: &mut SizedBank,
        row: &mut Vec<u32>,
    ) -> Result<Terms, OutOfMemory>
        requires walk { IsWalk self.now }
        requires begun { (firsts : List Tree)
            × HasBegun self.now bank.old row.old.items sorts.now firsts }
        requires some { HasRows self.now sorts.now }
        ensures first { IfOk result (λ values. (firsts : List Tree)
            → AreTerms bank.old row.old.items (trees_of firsts)
            → slice_get (block (spec_of self.now).sig self.now.depth firsts sorts.now) 0
            ≡ Some values) }
        ensures adds { AddsCells bank.old bank.new }
        ensures few { OnOk result (length bank.new ≤ length bank.old + self.now.bound) }
    {
        let (depth, bound) = (self.depth, self.bound);
        let _found = self
            .odometer
            .push_first(alloc, bank, sorts, depth, bound, row)?;
        let values = bank.terms(alloc, row)?;
        Terms::from_vec(alloc, values)
    }
}

/// The answer of a search by the look at the whole list.
fn answer(look: Look, tally: &Tally) -> Search
    ensures { IsAnswerOf look tally.now result }
{
    let (tried, skipped) = (tally.tried, tally.skipped);
    match look {
        Look::Found(values) => Search::Found {
            index: tried,
            values,
        },
        Look::Cut => Search::NotFound {
            tried,
            skipped,
            cut: true,
        },
        Look::Whole => Search::NotFound {
            tried,
            skipped,
            cut: false,
        },
    }
}

/// Begins the bank again if it has many cells, and with it what is kept over it. The values
/// of the row are put into the bank again.
fn make_room(
    alloc: Global,
    bank: &mut SizedBank,
    tables: &mut Tables,
    row: &mut Vec<u32>,
) -> Result<(), OutOfMemory>
    requires { CanRead bank.old row.old.items }
    ensures placed { OnOk result ((values : List Tree)
        → AreTerms bank.old row.old.items (trees_of values)
        → AreTerms bank.new row.new.items (trees_of values)) }
    ensures kept { OnOk result ((goal : Partial) → AreRightTables goal bank.old tables.old
        → AreRightTables goal bank.new tables.new) }
    ensures few { OnOk result (length bank.new ≤ max (2 ^ 18) (255 * length row.old.items)) }
{
    if bank.len() <= MANY_CELLS {
        return Ok(());
    }
    let values = bank.terms(alloc, row)?;
    *bank = SizedBank::new(alloc)?;
    *tables = Tables::new(alloc);
    *row = bank.place(alloc, &values)?;
    Ok(())
}
