//! `PartialGoal`: the verdict if only the first variables have values.

ghost use Rattle.std.specs.Prelude.{◌≡◌, ◌≢◌, ◌≤◌, ◌+◌, ◌-◌, ◌++◌, ℕ, suc, List, [], ◌∷◌, IfOk};
ghost use Rattle.std.specs.Prelude.{Some, MatchOption, length, slice_get};
ghost use Rattle.term_core.specs.Tree.{Tree, app, none};
ghost use Rattle.spec_core.specs.declared.records.Goal.{Goal};
ghost use Rattle.spec_core.specs.WellSorted.{IsWellSorted};
ghost use Rattle.value_bank.specs.Cells.{AddsCells};
ghost use Rattle.bank_machine.specs.KeptCalls.{AreRight};
ghost use Rattle.bank_machine.specs.Runs.{StandAt};
ghost use Rattle.ground_eval.specs.Constants.{AreMarks};
ghost use Rattle.ground_eval.specs.Entries.{AreEntriesAt, SayOfAll};
ghost use Rattle.ground_eval.specs.Looked.{most_compared, most_evaluated, most_over, most_looked};
ghost use Rattle.ground_eval.specs.Opened.{partial, IsOpened, AreFirstValues, AreMarksOf, IsPart};
ghost use Rattle.ground_eval.specs.OpenSides.{Setting, IsSet, GoalOpens};
ghost use Rattle.ground_eval.specs.Trials.{CanTryOpen};

use crate::answers::OpenSides;
use crate::comparing::{SidePair, Trial};
use crate::marks::{ConstantMarks, Constants};
use crate::open_sides::{compare_open_conclusions, compare_open_premises};
use crate::open_spec::OpenSpec;
use crate::prepared::{compile_goal, whole_verdict};
use bank_machine::{KeptCalls, Machine};
use spec_core::{Goal, Spec, Verdict};
use std::alloc::Global;
use std::marker::Model;
use term_core::{OutOfMemory, VarId};
use value_bank::{Bank, ValueId};

/// The verdict of a goal if only its first variables have values.
#[derive(Drop)]
pub enum Part {
    /// Each list of values that goes on with these has the verdict.
    All(Verdict),
    /// The verdict may depend on the variable, which has no value.
    Looks(VarId),
}

/// A goal of a specification, of which all code is compiled with constants for its variables.
/// Contracts see both, and the specification with constants.
#[derive(Drop)]
pub struct PartialGoal<'a> {
    spec: &'a Spec,
    goal: &'a Goal,
    opened: &'a OpenSpec,
    machine: Machine<'a>,
    constants: Constants,
    premises: Vec<SidePair>,
    conclusions: Vec<SidePair>,
}

impl<'a> Model for PartialGoal<'a> {
    ghost use Rattle.spec_core.specs.contracts.records.Spec as spec_contract;
    ghost use Rattle.spec_core.specs.contracts.records.Goal as goal_contract;
    ghost use Rattle.std.specs.Coded.{codes};
    ghost use Rattle.ground_eval.specs.Opened.{Partial, partial};
    ghost use Rattle.ground_eval.specs.OpenSides.{IsPartial};

    ghost Value = { Partial };

    ghost coded = { Prim.hlevel (codes, spec_contract.the_row.coded, goal_contract.the_row.coded) };

    ghost view = { λ p. partial p.spec.now p.goal.now p.machine.spec };

    ghost invariant = { λ p. IsPartial p.spec.now p.goal.now p.machine p.opened.now.goal p.constants
        p.premises.items p.conclusions.items };
}

impl<'a> PartialGoal<'a> {
    /// Compiles the specification with constants and the goal's sides.
    pub fn new(
        alloc: Global,
        spec: &'a Spec,
        goal: &'a Goal,
        opened: &'a OpenSpec,
    ) -> Result<PartialGoal<'a>, OutOfMemory>
        requires fine { IsWellSorted spec.now }
        requires listed { (k : ℕ) × (slice_get spec.now.goals k ≡ Some goal.now) }
        requires opened { IsOpened spec.now goal.now opened.now.spec opened.now.goal }
        ensures { IfOk result (λ made. made ≡ partial spec.now goal.now opened.now.spec) }
    {
        let machine = Machine::new(alloc, &opened.spec)?;
        let (machine, premises, conclusions) = compile_goal(alloc, machine, &opened.goal)?;
        let constants = Constants {
            from: spec.sig.constructors(),
            to: opened.spec.sig.constructors(),
        };
        Ok(PartialGoal {
            spec,
            goal,
            opened,
            machine,
            constants,
            premises,
            conclusions,
        })
    }

    /// The verdict if the goal's first variables have the values at these places. `Looks` names
    /// the first variable without one. Each further variable of sort `Bool` is tried with both of
    /// its values, so with b of them the goal is evaluated up to 2^b times, until one of these
    /// evaluations has no verdict. The table and the marks are kept from one call over the bank to
    /// the next.
    pub fn verdict_part(
        &self,
        alloc: Global,
        bank: &mut Bank,
        kept: &mut KeptCalls,
        marks: &mut ConstantMarks,
        fixed: &[ValueId],
        budget: u32,
    ) -> Result<Part, OutOfMemory>
        requires fine { IsWellSorted self.now.spec }
        requires listed { (k : ℕ) × (slice_get self.now.spec.goals k ≡ Some self.now.goal) }
        requires kept { AreRight self.now.extended bank.old kept.old }
        requires marks { AreMarksOf self.now bank.old marks.old }
        requires values { (terms : List Tree) × StandAt bank.old fixed.now terms
            × AreFirstValues self.now.spec self.now.goal terms }
        ensures part { IfOk result (λ part. (terms : List Tree) → StandAt bank.old fixed.now terms
            → AreFirstValues self.now.spec self.now.goal terms
            → IsPart self.now.spec self.now.goal terms budget part) }
        ensures adds { AddsCells bank.old bank.new }
        ensures kept { AreRight self.now.extended bank.new kept.new }
        ensures marks { AreMarksOf self.now bank.new marks.new }
        ensures few { IfOk result (λ _. length bank.new
            ≤ length bank.old + most_looked self.now budget) }
    {
        let count = self.goal.vars.len();
        let trial = Trial {
            alloc,
            machine: &self.machine,
            values: fixed,
            budget,
        };
        let premises = self.premises.as_slice();
        let conclusions = self.conclusions.as_slice();
        if fixed.len() == count {
            let verdict = whole_verdict(&trial, bank, kept, premises, conclusions)?;
            return Ok(Part::All(verdict));
        }
        match self.verdict_over(alloc, bank, kept, marks, fixed, budget)? {
            Some(verdict) => Ok(Part::All(verdict)),
            None => Ok(Part::Looks(VarId(fixed.len() as u32))),
        }
    }

    /// The verdict when these stand for the first variables, if there is one whatever the others
    /// are. A further variable of sort `Bool`, which has no constant, has each of its two values in
    /// turn, and any other one its constant.
    fn verdict_over(
        &self,
        alloc: Global,
        bank: &mut Bank,
        kept: &mut KeptCalls,
        marks: &mut ConstantMarks,
        entries: &[ValueId],
        budget: u32,
    ) -> Result<Option<Verdict>, OutOfMemory>
        requires fine { IsWellSorted self.now.spec }
        requires listed { (k : ℕ) × (slice_get self.now.spec.goals k ≡ Some self.now.goal) }
        requires kept { AreRight self.now.extended bank.old kept.old }
        requires marks { AreMarksOf self.now bank.old marks.old }
        requires entries { (terms : List Tree) × AreEntriesAt self.now bank.old entries.now terms }
        ensures says { IfOk result (λ r. (terms : List Tree)
            → AreEntriesAt self.now bank.old entries.now terms
            → SayOfAll self.now.spec self.now.goal budget terms r) }
        ensures adds { AddsCells bank.old bank.new }
        ensures kept { AreRight self.now.extended bank.new kept.new }
        ensures marks { AreMarksOf self.now bank.new marks.new }
        ensures few { IfOk result (λ _. 2 + length bank.new ≤ length bank.old
            + most_over self.now (length self.now.goal.vars - length entries.now) budget) }
    {
        let vars = self.goal.vars.as_slice();
        let number = entries.len();
        if number == vars.len() {
            return self.verdict_at(alloc, bank, kept, marks, entries, budget);
        }
        if vars[number].sort.0 != 0 {
            let symbol = self.constants.of(number);
            let more = add_symbol(alloc, bank, entries, symbol)?;
            return self.verdict_over(alloc, bank, kept, marks, &more, budget);
        }
        let with_true = add_symbol(alloc, bank, entries, 0)?;
        match self.verdict_over(alloc, bank, kept, marks, &with_true, budget)? {
            None => Ok(None),
            Some(first) => {
                let with_false = add_symbol(alloc, bank, entries, 1)?;
                match self.verdict_over(alloc, bank, kept, marks, &with_false, budget)? {
                    None => Ok(None),
                    Some(second) => Ok(agreed(first, second)),
                }
            }
        }
    }

    /// The same if something stands for each variable.
    fn verdict_at(
        &self,
        alloc: Global,
        bank: &mut Bank,
        kept: &mut KeptCalls,
        marks: &mut ConstantMarks,
        entries: &[ValueId],
        budget: u32,
    ) -> Result<Option<Verdict>, OutOfMemory>
        requires fine { IsWellSorted self.now.spec }
        requires listed { (k : ℕ) × (slice_get self.now.spec.goals k ≡ Some self.now.goal) }
        requires kept { AreRight self.now.extended bank.old kept.old }
        requires marks { AreMarksOf self.now bank.old marks.old }
        requires all { length entries.now ≡ length self.now.goal.vars }
        requires entries { (terms : List Tree) × AreEntriesAt self.now bank.old entries.now terms }
        ensures says { IfOk result (λ r. (terms : List Tree)
            → AreEntriesAt self.now bank.old entries.now terms
            → SayOfAll self.now.spec self.now.goal budget terms r) }
        ensures adds { AddsCells bank.old bank.new }
        ensures kept { AreRight self.now.extended bank.new kept.new }
        ensures marks { AreMarksOf self.now bank.new marks.new }
        ensures few { IfOk result (λ _. length bank.new
            ≤ length bank.old + most_evaluated self.now budget) }
    {
        let trial = Trial {
            alloc,
            machine: &self.machine,
            values: entries,
            budget,
        };
        open_verdict(
            &trial,
            self.constants,
            bank,
            kept,
            marks,
            self.premises.as_slice(),
            self.conclusions.as_slice(),
        )
    }
}

/// The verdict, if both are it.
fn agreed(first: Verdict, second: Verdict) -> Option<Verdict>
    ensures { MatchOption result (first ≢ second) (λ v. (v ≡ first) × (v ≡ second)) }
{
    if first == second { Some(first) } else { None }
}

/// The places, and after them that of the symbol's term without arguments.
fn add_symbol(
    alloc: Global,
    bank: &mut Bank,
    places: &[ValueId],
    symbol: u32,
) -> Result<Vec<ValueId>, OutOfMemory>
    ensures stand { IfOk result (λ ids. (terms : List Tree) → StandAt bank.old places.now terms
        → StandAt bank.new ids.items (terms ++ app symbol none ∷ [])) }
    ensures longer { IfOk result (λ ids. length ids.items ≡ suc (length places.now)) }
    ensures adds { AddsCells bank.old bank.new }
    ensures few { length bank.new ≤ suc (length bank.old) }
{
    let mut ids = Vec::from_slice(alloc, places)?;
    let place = bank.add(symbol, &[])?;
    ids.push(ValueId(place as usize))?;
    Ok(ids)
}

/// The verdict when some variables have no value, if there is one whatever they are.
fn open_verdict(
    trial: &Trial,
    constants: Constants,
    bank: &mut Bank,
    kept: &mut KeptCalls,
    marks: &mut ConstantMarks,
    premises: &[SidePair],
    conclusions: &[SidePair],
) -> Result<Option<Verdict>, OutOfMemory>
    requires fine { IsWellSorted trial.now.machine.now.spec }
    requires kept { AreRight trial.now.machine.now.spec bank.old kept.old }
    requires marks { AreMarks constants.from constants.to bank.old marks.old.marks.items }
    requires ready { (s : Setting) × (goal : Goal) × IsSet s trial.now.machine.now constants
        × CanTryOpen trial.now bank.old premises.now goal.premises s
        × CanTryOpen trial.now bank.old conclusions.now goal.conclusions s }
    ensures opens { IfOk result (λ r. (s : Setting) (goal : Goal)
        → IsSet s trial.now.machine.now constants
        → CanTryOpen trial.now bank.old premises.now goal.premises s
        → CanTryOpen trial.now bank.old conclusions.now goal.conclusions s
        → GoalOpens s trial.now.budget goal r) }
    ensures adds { AddsCells bank.old bank.new }
    ensures kept { AreRight trial.now.machine.now.spec bank.new kept.new }
    ensures marks { AreMarks constants.from constants.to bank.new marks.new.marks.items }
    ensures few { IfOk result (λ _. length bank.new ≤ length bank.old + most_compared
        trial.now.machine.now (length premises.now + length conclusions.now) trial.now.budget) }
{
    match compare_open_premises(trial, constants, bank, kept, marks, premises)? {
        OpenSides::Unknown => Ok(None),
        OpenSides::Differ => Ok(Some(Verdict::Holds)),
        OpenSides::Same => {
            compare_open_conclusions(trial, constants, bank, kept, marks, conclusions)
        }
    }
}
