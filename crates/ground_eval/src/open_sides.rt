//! The sides of equations in which some variables have no value.

ghost use Rattle.std.specs.Prelude.{◌≤◌, ◌+◌, ◌*◌, List, IfOk, length};
ghost use Rattle.spec_core.specs.WellSorted.{IsWellSorted};
ghost use Rattle.spec_core.specs.declared.records.Equation.{Equation};
ghost use Rattle.value_bank.specs.Cells.{AddsCells};
ghost use Rattle.bank_machine.specs.Fuel.{most_added};
ghost use Rattle.bank_machine.specs.KeptCalls.{AreRight};
ghost use Rattle.ground_eval.specs.Constants.{AreMarks};
ghost use Rattle.ground_eval.specs.Looked.{most_compared};
ghost use Rattle.ground_eval.specs.OpenSides.{Setting, IsSet, CanOpen, SidesOpen};
ghost use Rattle.ground_eval.specs.OpenSides.{PremisesOpen, ConclusionsOpen};
ghost use Rattle.ground_eval.specs.Trials.{CanTryOpen};

use crate::answers::OpenSides;
use crate::comparing::{SidePair, Trial};
use crate::marks::{ConstantMarks, Constants, compare_values};
use bank_machine::{BankEval, KeptCalls, Machine};
use spec_core::Verdict;
use std::alloc::Global;
use term_core::OutOfMemory;
use value_bank::{Bank, ValueId};

/// Same if the sides of each premise are the same, else what the first other premise is.
pub(crate) fn compare_open_premises(
    trial: &Trial,
    constants: Constants,
    bank: &mut Bank,
    kept: &mut KeptCalls,
    marks: &mut ConstantMarks,
    premises: &[SidePair],
) -> Result<OpenSides, OutOfMemory>
    requires fine { IsWellSorted trial.now.machine.now.spec }
    requires kept { AreRight trial.now.machine.now.spec bank.old kept.old }
    requires marks { AreMarks constants.from constants.to bank.old marks.old.marks.items }
    requires ready { (s : Setting) × (es : List Equation)
        × IsSet s trial.now.machine.now constants
        × CanTryOpen trial.now bank.old premises.now es s }
    ensures sides { IfOk result (λ r. (s : Setting) (es : List Equation)
        → IsSet s trial.now.machine.now constants
        → CanTryOpen trial.now bank.old premises.now es s
        → PremisesOpen s trial.now.budget es r) }
    ensures adds { AddsCells bank.old bank.new }
    ensures kept { AreRight trial.now.machine.now.spec bank.new kept.new }
    ensures marks { AreMarks constants.from constants.to bank.new marks.new.marks.items }
    ensures few { IfOk result (λ _. length bank.new
        ≤ length bank.old
        + most_compared trial.now.machine.now (length premises.now) trial.now.budget) }
{
    for premise in premises {
        match compare_open_sides(trial, constants, bank, kept, marks, *premise)? {
            OpenSides::Same => continue,
            OpenSides::Differ => return Ok(OpenSides::Differ),
            OpenSides::Unknown => return Ok(OpenSides::Unknown),
        }
    }
    Ok(OpenSides::Same)
}

/// The verdict when each premise holds, if there is one whatever the variables are.
pub(crate) fn compare_open_conclusions(
    trial: &Trial,
    constants: Constants,
    bank: &mut Bank,
    kept: &mut KeptCalls,
    marks: &mut ConstantMarks,
    conclusions: &[SidePair],
) -> Result<Option<Verdict>, OutOfMemory>
    requires fine { IsWellSorted trial.now.machine.now.spec }
    requires kept { AreRight trial.now.machine.now.spec bank.old kept.old }
    requires marks { AreMarks constants.from constants.to bank.old marks.old.marks.items }
    requires ready { (s : Setting) × (es : List Equation)
        × IsSet s trial.now.machine.now constants
        × CanTryOpen trial.now bank.old conclusions.now es s }
    ensures verdict { IfOk result (λ r. (s : Setting) (es : List Equation)
        → IsSet s trial.now.machine.now constants
        → CanTryOpen trial.now bank.old conclusions.now es s
        → ConclusionsOpen s trial.now.budget es r) }
    ensures adds { AddsCells bank.old bank.new }
    ensures kept { AreRight trial.now.machine.now.spec bank.new kept.new }
    ensures marks { AreMarks constants.from constants.to bank.new marks.new.marks.items }
    ensures few { IfOk result (λ _. length bank.new
        ≤ length bank.old
        + most_compared trial.now.machine.now (length conclusions.now) trial.now.budget) }
{
    for conclusion in conclusions {
        match compare_open_sides(trial, constants, bank, kept, marks, *conclusion)? {
            OpenSides::Same => return Ok(Some(Verdict::Holds)),
            OpenSides::Differ => continue,
            OpenSides::Unknown => return Ok(None),
        }
    }
    Ok(Some(Verdict::Fails))
}

/// What the sides give, of which the left one is evaluated first.
fn compare_open_sides(
    trial: &Trial,
    constants: Constants,
    bank: &mut Bank,
    kept: &mut KeptCalls,
    marks: &mut ConstantMarks,
    sides: SidePair,
) -> Result<OpenSides, OutOfMemory>
    requires fine { IsWellSorted trial.now.machine.now.spec }
    requires kept { AreRight trial.now.machine.now.spec bank.old kept.old }
    requires marks { AreMarks constants.from constants.to bank.old marks.old.marks.items }
    requires ready { (s : Setting) × (e : Equation) × IsSet s trial.now.machine.now constants
        × CanOpen s trial.now.machine.now bank.old sides trial.now.values.now e }
    ensures sides { IfOk result (λ r. (s : Setting) (e : Equation)
        → IsSet s trial.now.machine.now constants
        → CanOpen s trial.now.machine.now bank.old sides trial.now.values.now e
        → SidesOpen s trial.now.budget e r) }
    ensures adds { AddsCells bank.old bank.new }
    ensures kept { AreRight trial.now.machine.now.spec bank.new kept.new }
    ensures marks { AreMarks constants.from constants.to bank.new marks.new.marks.items }
    ensures few { IfOk result (λ _. length bank.new
        ≤ length bank.old + 2 * most_added trial.now.machine.now trial.now.budget) }
{
    match trial.machine.run(
        trial.alloc,
        bank,
        kept,
        sides.left,
        trial.values,
        trial.budget,
    )? {
        BankEval::Spent => Ok(OpenSides::Unknown),
        BankEval::Value { id: left, steps: _ } => {
            match trial.machine.run(
                trial.alloc,
                bank,
                kept,
                sides.right,
                trial.values,
                trial.budget,
            )? {
                BankEval::Spent => Ok(OpenSides::Unknown),
                BankEval::Value {
                    id: right,
                    steps: _,
                } => compare_values(bank, constants, marks, left, right),
            }
        }
    }
}
