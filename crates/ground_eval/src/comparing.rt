//! The sides of equations, in order, over a bank.

ghost use Rattle.std.specs.Prelude.{◌≡◌, ◌≤◌, ◌+◌, ◌*◌, ℕ, List, IfOk, length};
ghost use Rattle.std.specs.List.{AllByRecursion};
ghost use Rattle.term_core.specs.Tree.{Tree};
ghost use Rattle.spec_core.specs.WellSorted.{IsWellSorted};
ghost use Rattle.spec_core.specs.declared.records.Equation.{Equation};
ghost use Rattle.value_bank.specs.Cells.{AddsCells};
ghost use Rattle.bank_machine.specs.Fuel.{most_added};
ghost use Rattle.bank_machine.specs.KeptCalls.{AreRight};
ghost use Rattle.ground_eval.specs.Looked.{most_compared};
ghost use Rattle.ground_eval.specs.Prepared.{CanCompare};
ghost use Rattle.ground_eval.specs.Sides.{SidesAre, PremisesAre, ConclusionsAre};
ghost use Rattle.ground_eval.specs.Trials.{CanTry};

use crate::answers::Sides;
use bank_machine::{BankEval, KeptCalls, Machine};
use spec_core::Verdict;
use std::alloc::Global;
use term_core::OutOfMemory;
use value_bank::{Bank, ValueId};

/// Where the code of an equation's sides begins.
#[derive(Clone, Copy)]
pub(crate) struct SidePair {
    pub(crate) left: usize,
    pub(crate) right: usize,
}

/// A trial of a goal: the machine that evaluates its sides, the places of its variables' values,
/// and the budget of each evaluation.
#[derive(Clone, Copy)]
pub(crate) struct Trial<'a> {
    pub(crate) alloc: Global,
    pub(crate) machine: &'a Machine<'a>,
    pub(crate) values: &'a [ValueId],
    pub(crate) budget: u32,
}

/// Same if the sides of each premise are the same, else what the first other premise is.
pub(crate) fn compare_premises(
    trial: &Trial,
    bank: &mut Bank,
    kept: &mut KeptCalls,
    premises: &[SidePair],
) -> Result<Sides, OutOfMemory>
    requires fine { IsWellSorted trial.now.machine.now.spec }
    requires kept { AreRight trial.now.machine.now.spec bank.old kept.old }
    requires ready { (es : List Equation) × (terms : List Tree)
        × CanTry trial.now bank.old premises.now es terms }
    ensures sides { IfOk result (λ r. (es : List Equation) (terms : List Tree)
        → CanTry trial.now bank.old premises.now es terms
        → PremisesAre trial.now.machine.now.spec terms trial.now.budget es r) }
    ensures adds { AddsCells bank.old bank.new }
    ensures kept { AreRight trial.now.machine.now.spec bank.new kept.new }
    ensures few { IfOk result (λ _. length bank.new
        ≤ length bank.old
        + most_compared trial.now.machine.now (length premises.now) trial.now.budget) }
{
    for premise in premises {
        match compare_sides(trial, bank, kept, *premise)? {
            Sides::Same => continue,
            Sides::Differ => return Ok(Sides::Differ),
            Sides::Spent => return Ok(Sides::Spent),
        }
    }
    Ok(Sides::Same)
}

/// The verdict if each premise holds.
pub(crate) fn compare_conclusions(
    trial: &Trial,
    bank: &mut Bank,
    kept: &mut KeptCalls,
    conclusions: &[SidePair],
) -> Result<Verdict, OutOfMemory>
    requires fine { IsWellSorted trial.now.machine.now.spec }
    requires kept { AreRight trial.now.machine.now.spec bank.old kept.old }
    requires ready { (es : List Equation) × (terms : List Tree)
        × CanTry trial.now bank.old conclusions.now es terms }
    ensures verdict { IfOk result (λ r. (es : List Equation) (terms : List Tree)
        → CanTry trial.now bank.old conclusions.now es terms
        → ConclusionsAre trial.now.machine.now.spec terms trial.now.budget es r) }
    ensures adds { AddsCells bank.old bank.new }
    ensures kept { AreRight trial.now.machine.now.spec bank.new kept.new }
    ensures few { IfOk result (λ _. length bank.new
        ≤ length bank.old
        + most_compared trial.now.machine.now (length conclusions.now) trial.now.budget) }
{
    for conclusion in conclusions {
        match compare_sides(trial, bank, kept, *conclusion)? {
            Sides::Same => return Ok(Verdict::Holds),
            Sides::Differ => continue,
            Sides::Spent => return Ok(Verdict::Spent),
        }
    }
    Ok(Verdict::Fails)
}

/// What the sides give, of which the left one is evaluated first.
fn compare_sides(
    trial: &Trial,
    bank: &mut Bank,
    kept: &mut KeptCalls,
    sides: SidePair,
) -> Result<Sides, OutOfMemory>
    requires fine { IsWellSorted trial.now.machine.now.spec }
    requires kept { AreRight trial.now.machine.now.spec bank.old kept.old }
    requires ready { (e : Equation) × (terms : List Tree)
        × CanCompare trial.now.machine.now bank.old sides trial.now.values.now e terms }
    ensures sides { IfOk result (λ r. (e : Equation) (terms : List Tree)
        → CanCompare trial.now.machine.now bank.old sides trial.now.values.now e terms
        → SidesAre trial.now.machine.now.spec terms trial.now.budget e r) }
    ensures adds { AddsCells bank.old bank.new }
    ensures kept { AreRight trial.now.machine.now.spec bank.new kept.new }
    ensures few { IfOk result (λ _. length bank.new
        ≤ length bank.old + 2 * most_added trial.now.machine.now trial.now.budget) }
{
    match trial.machine.run(
        trial.alloc,
        bank,
        kept,
        sides.left,
        trial.values,
        trial.budget,
    )? {
        BankEval::Spent => Ok(Sides::Spent),
        BankEval::Value { id: left, steps: _ } => {
            match trial.machine.run(
                trial.alloc,
                bank,
                kept,
                sides.right,
                trial.values,
                trial.budget,
            )? {
                BankEval::Spent => Ok(Sides::Spent),
                BankEval::Value {
                    id: right,
                    steps: _,
                } => {
                    if bank.same(left, right) {
                        Ok(Sides::Same)
                    } else {
                        Ok(Sides::Differ)
                    }
                }
            }
        }
    }
}
