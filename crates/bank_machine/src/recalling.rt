//! Calls that are entered, and values that are kept.

ghost use Rattle.std.specs.Prelude.{ℕ, List, ◌≡◌, ◌<◌, ◌+◌, ◌^◌, Some, IfOk, slice_get};
ghost use Rattle.spec_core.specs.WellSorted.{IsWellSorted};
ghost use Rattle.rule_code.specs.Code.{call as call_step};
ghost use Rattle.rule_code.specs.Instructions.{does};
ghost use Rattle.bank_machine.specs.KeptCalls.{AreRight, IsRight};
ghost use Rattle.bank_machine.specs.Owed.{HasCalled};
ghost use Rattle.bank_machine.specs.Stacks.{shown, gathered};
ghost use Rattle.bank_machine.specs.Turns.{IsWorking, IsTurn};

use crate::kept_calls::{KeptCalls, Known};
use crate::machine::Machine;
use crate::stack::Stack;
use crate::turns::Turn;
use rule_code::Kind;
use term_core::OutOfMemory;
use value_bank::Bank;

impl<'a> Machine<'a> {
    /// The frame waits for what the call of a function with arguments at these places gives.
    #[inline(always)]
    pub(crate) fn enter(
        &self,
        bank: &Bank,
        stack: &mut Stack,
        sym: u32,
        args: &[u32],
        left: u32,
    ) -> Result<Turn, OutOfMemory>
        requires fine { IsWellSorted self.now.spec }
        requires calls { (ss : List ℕ) × (slice_get self.now.code stack.old.next
            ≡ Some (does (call_step sym ss)))
            × (args.now ≡ gathered stack.old.places.items stack.old.base ss) }
        requires room { stack.old.next + 1 < 2 ^ 64 }
        requires works { IsWorking self.now bank.now (shown stack.old) }
        requires funds { 0 < left }
        ensures { IfOk result (IsTurn self.now bank.now bank.now left (shown stack.old)
            (shown stack.new)) }
    {
        stack.call(args, left)?;
        match self.find(bank, sym, stack.base, &mut stack.places)? {
            None => Ok(Turn::Stuck),
            Some(next) => {
                stack.next = next;
                Ok(Turn::Moved(1))
            }
        }
    }

    /// Keeps what is known of the call before the next step.
    #[inline(always)]
    pub(crate) fn keep(
        &self,
        bank: &Bank,
        kept: &mut KeptCalls,
        stack: &Stack,
        args: &mut Vec<u32>,
        known: Known,
    ) -> Result<(), OutOfMemory>
        requires called { (f : ℕ) × (ss : List ℕ) × HasCalled self.now (shown stack.now) f ss
            × IsRight self.now.spec bank.now f (gathered stack.now.places.items stack.now.base ss)
            known }
        requires kept { AreRight self.now.spec bank.now kept.old }
        ensures { AreRight self.now.spec bank.now kept.new }
    {
        if !kept.wants(known.cost) {
            return Ok(());
        }
        let (kind, slots) = self.code.at(stack.next - 1);
        match kind {
            Kind::Call(sym) => {
                stack.gather(slots, args)?;
                kept.keep(sym, args, known)
            }
            _ => Ok(()),
        }
    }
}
