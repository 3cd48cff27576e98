//! Left sides against slots.

ghost use Rattle.std.specs.Prelude.{◌≡◌, ◌<◌, ◌≤◌, ◌↔◌, ℕ, List, Some, IfOk, IsTrue, drop, length};
ghost use Rattle.std.specs.Prelude.{slice_get};
ghost use Rattle.term_core.specs.Tree.{Tree, trees_of};
ghost use Rattle.spec_core.specs.declared.records.Rule.{Rule};
ghost use Rattle.value_bank.specs.Cells.{AreTerms};
ghost use Rattle.rule_code.specs.Matching.{Opens};
ghost use Rattle.rule_code.specs.Homes.{IsLeftSide};
ghost use Rattle.rule_code.specs.declared.tests.Repeat.{Repeat as SpecRepeat};
ghost use Rattle.rule_code.specs.Matched.{AreSame, ArePassed, Fits, Tells};

use crate::left_sides::LeftSide;
use crate::tests::{Repeat, Test};
use std::alloc::Global;
use term_core::OutOfMemory;
use value_bank::{Bank, ValueId};

impl LeftSide {
    /// Whether the left side matches the call whose arguments begin at `base`. If it does, all
    /// its slots are there, and else the places are as they were.
    pub fn matches(
        &self,
        bank: &Bank,
        base: usize,
        places: &mut Vec<u32>,
    ) -> Result<bool, OutOfMemory>
        requires { (rule : Rule) × (side : IsLeftSide rule self.now) × (env : List Tree)
            × (base ≤ length places.old.items)
            × AreTerms bank.now (drop base places.old.items) (trees_of env)
            × (length env ≡ length side.patterns) }
        ensures { IfOk result (Tells bank.now self.now base places.old.items places.new.items) }
    {
        let top = places.len();
        let fits = self.fits(bank, base, places)?;
        if !fits {
            places.truncate(top);
        }
        Ok(fits)
    }

    /// The same, where the places of slots may stay in each case.
    fn fits(&self, bank: &Bank, base: usize, places: &mut Vec<u32>) -> Result<bool, OutOfMemory>
        requires { (rule : Rule) × (side : IsLeftSide rule self.now) × (env : List Tree)
            × (base ≤ length places.old.items)
            × AreTerms bank.now (drop base places.old.items) (trees_of env)
            × (length env ≡ length side.patterns) }
        ensures { IfOk result (Fits bank.now self.now base places.old.items places.new.items) }
    {
        if !pass(bank, &self.tests, base, places)? {
            return Ok(false);
        }
        Ok(are_same(bank, &self.repeats, base, places))
    }
}

/// Whether the tests pass. The arguments of the values that were tested are added.
fn pass(
    bank: &Bank,
    tests: &[Test],
    base: usize,
    places: &mut Vec<u32>,
) -> Result<bool, OutOfMemory>
    requires { (env : List Tree) × (patterns : List Tree) × (all : List Tree)
        × Opens patterns 0 tests.now all × (base ≤ length places.old.items)
        × AreTerms bank.now (drop base places.old.items) (trees_of env)
        × (length env ≡ length patterns) }
    ensures { IfOk result (ArePassed bank.now base tests.now places.old.items places.new.items) }
{
    for test in tests {
        let place = places[base + test.slot];
        let (sym, args) = bank.cell(place);
        if sym != test.sym || args.len() != test.count {
            return Ok(false);
        }
        places.extend_from_slice(args)?;
    }
    Ok(true)
}

/// Whether the slots of each repeat have one value.
fn are_same(bank: &Bank, repeats: &[Repeat], base: usize, places: &[u32]) -> bool
    requires { (grown : List Tree) × AreTerms bank.now (drop base places.now) (trees_of grown)
        × ((k : ℕ) (r : SpecRepeat) → slice_get repeats.now k ≡ Some r → (r.first < length grown)
        × (r.again < length grown)) }
    ensures { (grown : List Tree) → AreTerms bank.now (drop base places.now) (trees_of grown)
        → IsTrue result ↔ AreSame grown repeats.now }
{
    for repeat in repeats {
        let first = ValueId(places[base + repeat.first] as usize);
        let again = ValueId(places[base + repeat.again] as usize);
        if !bank.same(first, again) {
            return false;
        }
    }
    true
}
