//! `Machine::run`: moves until the value is there or the budget is spent.

ghost use Rattle.std.specs.Prelude.{ℕ, ◌≤◌, ◌+◌, List, IfOk, length};
ghost use Rattle.term_core.specs.Tree.{Tree, instance};
ghost use Rattle.term_core.specs.declared.ids.SortId.{SortId};
ghost use Rattle.spec_core.specs.WellSorted.{IsWellSorted};
ghost use Rattle.value_bank.specs.Cells.{AddsCells};
ghost use Rattle.bank_machine.specs.Fuel.{fuel, most_added};
ghost use Rattle.bank_machine.specs.KeptCalls.{AreRight};
ghost use Rattle.bank_machine.specs.Owed.{Pays};
ghost use Rattle.bank_machine.specs.Stacks.{shown};
ghost use Rattle.bank_machine.specs.States.{State};
ghost use Rattle.bank_machine.specs.Turns.{IsUnderWay, Works};
ghost use Rattle.bank_machine.specs.Runs.{CanRun, IsBankEval, Ran};

use crate::answers::BankEval;
use crate::kept_calls::KeptCalls;
use crate::machine::Machine;
use crate::stack::Stack;
use crate::turns::Turn;
use std::alloc::Global;
use term_core::OutOfMemory;
use value_bank::{Bank, ValueId};

impl<'a> Machine<'a> {
    /// Evaluates the term whose code begins at `side`, where its variables stand for the values at
    /// these places. Work waits on a vector. What a call gave that the table keeps isn't computed
    /// again, and costs what it cost.
    pub fn run(
        &self,
        alloc: Global,
        bank: &mut Bank,
        kept: &mut KeptCalls,
        side: usize,
        values: &[ValueId],
        budget: u32,
    ) -> Result<BankEval, OutOfMemory>
        requires fine { IsWellSorted self.now.spec }
        requires kept { AreRight self.now.spec bank.old kept.old }
        requires sorted { (term : Tree) × (terms : List Tree) × (sort : SortId)
            × CanRun self.now bank.old side values.now term terms sort }
        ensures found { IfOk result (λ found. (term : Tree) (terms : List Tree) (sort : SortId)
            → CanRun self.now bank.old side values.now term terms sort
            → IsBankEval self.now.spec bank.new (instance terms term) budget found) }
        ensures adds { AddsCells bank.old bank.new }
        ensures kept { AreRight self.now.spec bank.new kept.new }
        ensures few { IfOk result (λ _. length bank.new
            ≤ length bank.old + most_added self.now budget) }
    {
        let mut slots = Vec::with_capacity(alloc, values.len())?;
        for value in values {
            slots.push(bank.number(*value))?;
        }
        self.run_on(alloc, bank, kept, Stack::new(alloc, slots, side), budget)
    }

    /// Runs until the last frame gives its value.
    fn run_on(
        &self,
        alloc: Global,
        bank: &mut Bank,
        kept: &mut KeptCalls,
        mut stack: Stack,
        budget: u32,
    ) -> Result<BankEval, OutOfMemory>
        requires fine { IsWellSorted self.now.spec }
        requires kept { AreRight self.now.spec bank.old kept.old }
        requires works { IsUnderWay self.now bank.old budget (shown stack) }
        ensures ran { IfOk result (λ found. (s : State) (sort : SortId)
            → Works self.now bank.old (shown stack) s sort
            → Pays self.now budget (shown stack) s → Ran self.now.spec bank.new s budget found) }
        ensures adds { AddsCells bank.old bank.new }
        ensures kept { AreRight self.now.spec bank.new kept.new }
        ensures few { IfOk result (λ _. length bank.new
            ≤ length bank.old + fuel self.now (shown stack) budget) }
    {
        let mut args = Vec::new(alloc);
        let mut left = budget;
        'moves: loop {
            match self.turn(bank, kept, &mut stack, &mut args, left)? {
                Turn::Moved(cost) => left -= cost,
                Turn::Done(place) => {
                    return Ok(BankEval::Value {
                        id: ValueId(place as usize),
                        steps: budget - left,
                    });
                }
                Turn::Stuck => return Ok(BankEval::Spent),
            }
        }
    }
}
