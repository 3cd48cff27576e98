//! Which rule a call uses.

ghost use Rattle.std.specs.Prelude.{IfOk};
ghost use Rattle.spec_core.specs.WellSorted.{IsWellSorted};
ghost use Rattle.bank_machine.specs.Calls.{IsCallAt, IsFound};

use crate::machine::Machine;
use std::alloc::Global;
use term_core::OutOfMemory;
use value_bank::Bank;

impl<'a> Machine<'a> {
    /// Finds the rule that matches the call whose arguments begin at `base`. Then the slots of
    /// its left side are there, and the place is given where its code begins.
    pub(crate) fn find(
        &self,
        bank: &Bank,
        sym: u32,
        base: usize,
        places: &mut Vec<u32>,
    ) -> Result<Option<usize>, OutOfMemory>
        requires fine { IsWellSorted self.now.spec }
        requires call { IsCallAt self.now.spec bank.now sym base places.old.items }
        ensures { IfOk result (IsFound self.now bank.now sym base places.old.items
            places.new.items) }
    {
        let tree = &self.trees[sym as usize];
        let numbers = tree.rules_for(bank, &places[base..]);
        for number in numbers {
            let rule = &self.rules[*number];
            if rule.left.matches(bank, base, places)? {
                return Ok(Some(rule.begins[0]));
            }
        }
        Ok(None)
    }
}
