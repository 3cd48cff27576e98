//! Evaluation and verdicts over a bank that is lent. These calls compile the specification and
//! begin a table of kept calls themselves, so each serves a single use. Who has many goes by a
//! machine, or by a `PartialGoal`.
ghost use Rattle.std.specs.Prelude.{◌≡◌, ◌≢◌, ℕ, List, IfOk, Some, slice_get};
ghost use Rattle.term_core.specs.Tree.{Tree, instance};
ghost use Rattle.spec_core.specs.WellSorted.{IsWellSorted, sorts_of};
ghost use Rattle.spec_core.specs.Overlap.{NoOverlap};
ghost use Rattle.spec_core.specs.Groups.{GroupsAreWhole};
ghost use Rattle.spec_core.specs.Truth.{AreValuesOf, GoalFails};
ghost use Rattle.spec_core.specs.Verdict.{IsVerdict};
ghost use Rattle.value_bank.specs.Cells.{AddsCells};
ghost use Rattle.bank_machine.specs.Runs.{StandAt, IsBankEval};
ghost use Rattle.ground_eval.specs.Evals.{CanEvaluate, IsOnlyAt};
ghost use Rattle.ground_eval.specs.Opened.{AreFirstValues, IsPart};

use crate::comparing::Trial;
use crate::marks::ConstantMarks;
use crate::open_spec::OpenSpec;
use crate::parts::{Part, PartialGoal};
use crate::prepared::{compile_goal, whole_verdict};
use bank_machine::{BankEval, KeptCalls, Machine};
use spec_core::{Goal, Spec, Verdict};
use std::alloc::Global;
use term_core::{OutOfMemory, Term};
use value_bank::{Bank, ValueId};

/// Evaluation of terms over a bank.
pub trait Evaluate {
    ghost use Rattle.std.specs.Prelude.{List};
    ghost use Rattle.term_core.specs.Tree.{Tree};
    ghost use Rattle.spec_core.specs.declared.records.Spec.{Spec};
    ghost use Rattle.value_bank.specs.declared.bank.ValueId.{ValueId};

    /// The variables of the term have values at these places.
    ghost can_run: { Self → Spec → Tree → List ValueId → Type 0 };

    /// Evaluates a term, of which variable k stands for the value at the place `values[k]`.
    fn run(
        &mut self,
        alloc: Global,
        spec: &Spec,
        term: &Term,
        values: &[ValueId],
        budget: u32,
    ) -> Result<BankEval, OutOfMemory>
        requires fine { IsWellSorted spec.now }
        requires values { can_run self.old spec.now term.now values.now };
}

impl Evaluate for Bank {
    ghost can_run = { λ bank spec term ids. (terms : List Tree)
        × CanEvaluate spec bank term ids terms };

    fn run(
        &mut self,
        alloc: Global,
        spec: &Spec,
        term: &Term,
        values: &[ValueId],
        budget: u32,
    ) -> Result<BankEval, OutOfMemory>
        requires fine { IsWellSorted spec.now }
        requires values { (terms : List Tree)
            × CanEvaluate spec.now self.old term.now values.now terms }
        ensures found { IfOk result (λ found. (terms : List Tree)
            → StandAt self.old values.now terms
            → IsBankEval spec.now self.new (instance terms term.now) budget found) }
        ensures only { IfOk result (λ found. (terms : List Tree)
            → StandAt self.old values.now terms
            → IsOnlyAt spec.now self.new (instance terms term.now) found) }
        ensures adds { AddsCells self.old self.new }
    {
        let machine = Machine::new(alloc, spec)?;
        let (machine, side) = machine.with_term(alloc, term, values.len())?;
        let mut kept = KeptCalls::new(alloc);
        machine.run(alloc, self, &mut kept, side, values, budget)
    }
}

/// The verdict of a goal of the specification if its variables have the values at these places.
pub fn verdict_in(
    alloc: Global,
    bank: &mut Bank,
    spec: &Spec,
    goal: &Goal,
    values: &[ValueId],
    budget: u32,
) -> Result<Verdict, OutOfMemory>
    requires fine { IsWellSorted spec.now }
    requires listed { (k : ℕ) × (slice_get spec.now.goals k ≡ Some goal.now) }
    requires values { (terms : List Tree) × StandAt bank.old values.now terms
        × AreValuesOf spec.now (sorts_of goal.now.vars) terms }
    ensures verdict { IfOk result (λ r. (terms : List Tree) → StandAt bank.old values.now terms
        → NoOverlap spec.now → GroupsAreWhole spec.now
        → IsVerdict spec.now terms budget goal.now r) }
    ensures sure { IfOk result (λ r. (terms : List Tree) → StandAt bank.old values.now terms
        → r ≢ Verdict.Spent → IsVerdict spec.now terms budget goal.now r) }
    ensures fails { IfOk result (λ r. (terms : List Tree) → StandAt bank.old values.now terms
        → r ≡ Verdict.Fails → GoalFails spec.now terms goal.now) }
    ensures adds { AddsCells bank.old bank.new }
{
    let machine = Machine::new(alloc, spec)?;
    let (machine, premises, conclusions) = compile_goal(alloc, machine, goal)?;
    let mut kept = KeptCalls::new(alloc);
    let trial = Trial {
        alloc,
        machine: &machine,
        values,
        budget,
    };
    whole_verdict(&trial, bank, &mut kept, &premises, &conclusions)
}

/// The verdict if the goal's first variables have the values at these places, as
/// [`PartialGoal::verdict_part`] answers it.
pub fn verdict_part(
    alloc: Global,
    bank: &mut Bank,
    spec: &Spec,
    goal: &Goal,
    fixed: &[ValueId],
    budget: u32,
) -> Result<Part, OutOfMemory>
    requires fine { IsWellSorted spec.now }
    requires listed { (k : ℕ) × (slice_get spec.now.goals k ≡ Some goal.now) }
    requires values { (terms : List Tree) × StandAt bank.old fixed.now terms
        × AreFirstValues spec.now goal.now terms }
    ensures part { IfOk result (λ part. (terms : List Tree) → StandAt bank.old fixed.now terms
        → IsPart spec.now goal.now terms budget part) }
    ensures adds { AddsCells bank.old bank.new }
{
    let opened = OpenSpec::new(alloc, spec, goal)?;
    let partial = PartialGoal::new(alloc, spec, goal, &opened)?;
    let mut kept = KeptCalls::new(alloc);
    let mut marks = ConstantMarks::new(alloc);
    partial.verdict_part(alloc, bank, &mut kept, &mut marks, fixed, budget)
}
