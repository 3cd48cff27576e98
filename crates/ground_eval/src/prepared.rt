//! A goal's sides, compiled once, and the verdict if all variables have values.

ghost use Rattle.std.specs.Prelude.{◌≡◌, ◌≤◌, ◌+◌, ℕ, List, IfOk, length};
ghost use Rattle.term_core.specs.Tree.{Tree, trees_of, sizes};
ghost use Rattle.term_core.specs.declared.ids.SortId.{SortId};
ghost use Rattle.spec_core.specs.declared.records.Goal.{Goal};
ghost use Rattle.spec_core.specs.WellSorted.{IsWellSorted, GoalIsSorted, EquationsAreSorted};
ghost use Rattle.std.specs.List.{AllByRecursion};
ghost use Rattle.value_bank.specs.Cells.{AddsCells};
ghost use Rattle.value_bank.specs.Ground.{IsGround};
ghost use Rattle.rule_code.specs.Blocks.{AddsCode};
ghost use Rattle.bank_machine.specs.KeptCalls.{AreRight};
ghost use Rattle.bank_machine.specs.Runs.{StandAt};
ghost use Rattle.ground_eval.specs.Looked.{most_compared};
ghost use Rattle.ground_eval.specs.Prepared.{HaveCode, IsPrepared, sides_length};
ghost use Rattle.ground_eval.specs.Prepared.{goal_length};
ghost use Rattle.ground_eval.specs.Sides.{IsDecided};
ghost use Rattle.ground_eval.specs.Trials.{CanTry};

use crate::answers::Sides;
use crate::comparing::{SidePair, Trial, compare_conclusions, compare_premises};
use bank_machine::{KeptCalls, Machine};
use spec_core::{Equation, Goal, Verdict};
use std::alloc::Global;
use term_core::{OutOfMemory, Term};
use value_bank::{Bank, ValueId};

/// Compiles the sides of the goal's premises and of its conclusions.
pub(crate) fn compile_goal<'a>(
    alloc: Global,
    machine: Machine<'a>,
    goal: &Goal,
) -> Result<(Machine<'a>, Vec<SidePair>, Vec<SidePair>), OutOfMemory>
    requires { GoalIsSorted machine.spec.sig goal.now }
    ensures code { IfOk result (λ made. IsPrepared made.0 goal.now made.1.items made.2.items) }
    ensures spec { IfOk result (λ made. made.0.spec ≡ machine.entry.spec) }
    ensures few { IfOk result (λ made. length made.0.code
        ≤ length machine.entry.code + goal_length goal.now) }
{
    let variables = goal.vars.len();
    let (machine, premises) = compile_sides(alloc, machine, goal.premises.as_slice(), variables)?;
    let (machine, conclusions) = compile_sides(
        alloc,
        machine,
        goal.conclusions.as_slice(),
        variables,
    )?;
    Ok((machine, premises, conclusions))
}

/// Compiles the sides of equations with this many variables.
fn compile_sides<'a>(
    alloc: Global,
    machine: Machine<'a>,
    equations: &[Equation],
    variables: usize,
) -> Result<(Machine<'a>, Vec<SidePair>), OutOfMemory>
    requires { (ctx : List SortId) × EquationsAreSorted machine.spec.sig ctx equations.now
        × (length ctx ≡ variables) }
    ensures code { IfOk result (λ made. HaveCode made.0 variables equations.now made.1.items) }
    ensures spec { IfOk result (λ made. made.0.spec ≡ machine.entry.spec) }
    ensures adds { IfOk result (λ made. AddsCode machine.entry.code made.0.code) }
    ensures few { IfOk result (λ made. length made.0.code
        ≤ length machine.entry.code + sides_length equations.now) }
{
    let mut machine = machine;
    let mut pairs = Vec::with_capacity(alloc, equations.len())?;
    for equation in equations {
        let (with_left, left) = machine.with_term(alloc, &equation.left, variables)?;
        let (with_right, right) = with_left.with_term(alloc, &equation.right, variables)?;
        machine = with_right;
        pairs.push(SidePair { left, right })?;
    }
    Ok((machine, pairs))
}

/// Puts the values into the bank, and answers their places.
pub fn place_values(
    alloc: Global,
    bank: &mut Bank,
    values: &[Term],
) -> Result<Vec<ValueId>, OutOfMemory>
    requires { AllByRecursion IsGround values.now }
    ensures stand { IfOk result (λ ids. StandAt bank.new ids.items values.now) }
    ensures adds { AddsCells bank.old bank.new }
    ensures few { length bank.new ≤ length bank.old + sizes (trees_of values.now) }
{
    let mut ids = Vec::with_capacity(alloc, values.len())?;
    for value in values {
        ids.push(bank.value(alloc, value)?)?;
    }
    Ok(ids)
}

/// The verdict if all variables have values.
pub(crate) fn whole_verdict(
    trial: &Trial,
    bank: &mut Bank,
    kept: &mut KeptCalls,
    premises: &[SidePair],
    conclusions: &[SidePair],
) -> Result<Verdict, OutOfMemory>
    requires fine { IsWellSorted trial.now.machine.now.spec }
    requires kept { AreRight trial.now.machine.now.spec bank.old kept.old }
    requires ready { (goal : Goal) × (terms : List Tree)
        × CanTry trial.now bank.old premises.now goal.premises terms
        × CanTry trial.now bank.old conclusions.now goal.conclusions terms }
    ensures decided { IfOk result (λ verdict. (goal : Goal) (terms : List Tree)
        → CanTry trial.now bank.old premises.now goal.premises terms
        → CanTry trial.now bank.old conclusions.now goal.conclusions terms
        → IsDecided trial.now.machine.now.spec terms trial.now.budget goal verdict) }
    ensures adds { AddsCells bank.old bank.new }
    ensures kept { AreRight trial.now.machine.now.spec bank.new kept.new }
    ensures few { IfOk result (λ _. length bank.new ≤ length bank.old + most_compared
        trial.now.machine.now (length premises.now + length conclusions.now) trial.now.budget) }
{
    match compare_premises(trial, bank, kept, premises)? {
        Sides::Spent => Ok(Verdict::Spent),
        Sides::Differ => Ok(Verdict::Holds),
        Sides::Same => { compare_conclusions(trial, bank, kept, conclusions) }
    }
}
