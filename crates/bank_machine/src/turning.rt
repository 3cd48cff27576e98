//! One move of the machine.

ghost use Rattle.std.specs.Prelude.{ℕ, suc, List, ◌≡◌, ◌<◌, ◌≤◌, ◌+◌, ◌^◌, Some, IfOk, length};
ghost use Rattle.std.specs.Prelude.{slice_get};
ghost use Rattle.spec_core.specs.WellSorted.{IsWellSorted};
ghost use Rattle.value_bank.specs.Cells.{AddsCells};
ghost use Rattle.rule_code.specs.Code.{build as build_step, call as call_step, slot as slot_end};
ghost use Rattle.rule_code.specs.Code.{last as last_end, decide as decide_end};
ghost use Rattle.rule_code.specs.Instructions.{does, ends};
ghost use Rattle.bank_machine.specs.KeptCalls.{AreRight};
ghost use Rattle.bank_machine.specs.Stacks.{shown};
ghost use Rattle.bank_machine.specs.Turns.{IsWorking, IsUnderWay, IsTurn};

use crate::kept_calls::{KeptCalls, Known};
use crate::machine::Machine;
use crate::stack::Stack;
use crate::turns::Turn;
use rule_code::Kind;
use term_core::OutOfMemory;
use value_bank::Bank;

impl<'a> Machine<'a> {
    /// Does what the next instruction says.
    #[inline(always)]
    pub(crate) fn turn(
        &self,
        bank: &mut Bank,
        kept: &mut KeptCalls,
        stack: &mut Stack,
        args: &mut Vec<u32>,
        left: u32,
    ) -> Result<Turn, OutOfMemory>
        requires fine { IsWellSorted self.now.spec }
        requires kept { AreRight self.now.spec bank.old kept.old }
        requires works { IsUnderWay self.now bank.old left (shown stack.old) }
        ensures turn { IfOk result (IsTurn self.now bank.old bank.new left (shown stack.old)
            (shown stack.new)) }
        ensures adds { AddsCells bank.old bank.new }
        ensures few { length bank.new ≤ suc (length bank.old) }
        ensures kept { AreRight self.now.spec bank.new kept.new }
    {
        let (kind, slots) = self.code.at(stack.next);
        match kind {
            Kind::Build(sym) => self.build(bank, stack, args, sym, slots),
            Kind::Call(sym) => self.call(bank, kept, stack, args, sym, slots, left),
            Kind::Give(slot) => self.give(bank, kept, stack, args, slot, left),
            Kind::Last(sym) => self.call_last(bank, stack, args, sym, slots, left),
            Kind::Decide { slot, rule, asked } => {
                Ok(self.decide(bank, stack, slot, rule, asked, slots))
            }
        }
    }

    /// Builds a constructor with the values of slots.
    #[inline(always)]
    pub(crate) fn build(
        &self,
        bank: &mut Bank,
        stack: &mut Stack,
        args: &mut Vec<u32>,
        sym: u32,
        slots: &[usize],
    ) -> Result<Turn, OutOfMemory>
        requires fine { IsWellSorted self.now.spec }
        requires there { slice_get self.now.code stack.old.next
            ≡ Some (does (build_step sym slots.now)) }
        requires room { stack.old.next + 1 < 2 ^ 64 }
        requires works { IsWorking self.now bank.old (shown stack.old) }
        ensures turn { IfOk result (λ turn. (left : ℕ)
            → IsTurn self.now bank.old bank.new left (shown stack.old) (shown stack.new) turn) }
        ensures adds { AddsCells bank.old bank.new }
        ensures few { length bank.new ≤ suc (length bank.old) }
    {
        stack.gather(slots, args)?;
        let place = bank.add(sym, args)?;
        stack.put(place)?;
        Ok(Turn::Moved(0))
    }

    /// Calls a function with the values of slots. If the call's value is known, the frame goes on
    /// with it.
    #[inline(always)]
    pub(crate) fn call(
        &self,
        bank: &Bank,
        kept: &KeptCalls,
        stack: &mut Stack,
        args: &mut Vec<u32>,
        sym: u32,
        slots: &[usize],
        left: u32,
    ) -> Result<Turn, OutOfMemory>
        requires fine { IsWellSorted self.now.spec }
        requires there { slice_get self.now.code stack.old.next
            ≡ Some (does (call_step sym slots.now)) }
        requires room { stack.old.next + 1 < 2 ^ 64 }
        requires kept { AreRight self.now.spec bank.now kept.now }
        requires works { IsWorking self.now bank.now (shown stack.old) }
        ensures { IfOk result (IsTurn self.now bank.now bank.now left (shown stack.old)
            (shown stack.new)) }
    {
        if left == 0 {
            return Ok(Turn::Stuck);
        }
        stack.gather(slots, args)?;
        match kept.find(sym, args) {
            None => self.enter(bank, stack, sym, args, left),
            Some(known) => {
                if known.cost > left {
                    return Ok(Turn::Stuck);
                }
                stack.put(known.place)?;
                Ok(Turn::Moved(known.cost))
            }
        }
    }

    /// Calls a function with the values of slots, whose value is the frame's.
    #[inline(always)]
    pub(crate) fn call_last(
        &self,
        bank: &Bank,
        stack: &mut Stack,
        args: &mut Vec<u32>,
        sym: u32,
        slots: &[usize],
        left: u32,
    ) -> Result<Turn, OutOfMemory>
        requires fine { IsWellSorted self.now.spec }
        requires there { slice_get self.now.code stack.old.next
            ≡ Some (ends (last_end sym slots.now)) }
        requires works { IsWorking self.now bank.now (shown stack.old) }
        ensures { IfOk result (IsTurn self.now bank.now bank.now left (shown stack.old)
            (shown stack.new)) }
    {
        if left == 0 {
            return Ok(Turn::Stuck);
        }
        stack.gather(slots, args)?;
        stack.call_last(args)?;
        match self.find(bank, sym, stack.base, &mut stack.places)? {
            None => Ok(Turn::Stuck),
            Some(next) => {
                stack.next = next;
                Ok(Turn::Moved(1))
            }
        }
    }

    /// Goes on with the rule that goes on with the answer in a slot, by the slots of its left side.
    #[inline(always)]
    pub(crate) fn decide(
        &self,
        bank: &Bank,
        stack: &mut Stack,
        slot: usize,
        rule: usize,
        asked: usize,
        homes: &[usize],
    ) -> Turn
        requires fine { IsWellSorted self.now.spec }
        requires there { slice_get self.now.code stack.old.next
            ≡ Some (ends (decide_end slot rule asked homes.now)) }
        requires works { IsWorking self.now bank.now (shown stack.old) }
        ensures { (left : ℕ) → IsTurn self.now bank.now bank.now left (shown stack.old)
            (shown stack.new) result }
    {
        let (sym, args) = bank.cell(stack.slot(slot));
        let code = &self.rules[rule];
        let Some(branch) = code.branches.as_slice().get(asked) else {
            return Turn::Stuck;
        };
        let Some(number) = branch.answered(sym, args.len()) else {
            return Turn::Stuck;
        };
        let next = &self.rules[number];
        stack.cut(code.left.width, next.begins[asked + 1]);
        Turn::Moved(0)
    }

    /// Gives the value of a slot to the frame that waits for it.
    #[inline(always)]
    pub(crate) fn give(
        &self,
        bank: &Bank,
        kept: &mut KeptCalls,
        stack: &mut Stack,
        args: &mut Vec<u32>,
        slot: usize,
        left: u32,
    ) -> Result<Turn, OutOfMemory>
        requires there { slice_get self.now.code stack.old.next ≡ Some (ends (slot_end slot)) }
        requires kept { AreRight self.now.spec bank.now kept.old }
        requires works { IsUnderWay self.now bank.now left (shown stack.old) }
        ensures turn { IfOk result (IsTurn self.now bank.now bank.now left (shown stack.old)
            (shown stack.new)) }
        ensures kept { AreRight self.now.spec bank.now kept.new }
    {
        let place = stack.slot(slot);
        match stack.give(place)? {
            None => Ok(Turn::Done(place)),
            Some(before) => {
                let cost = before - left;
                self.keep(bank, kept, stack, args, Known { place, cost })?;
                Ok(Turn::Moved(0))
            }
        }
    }
}
