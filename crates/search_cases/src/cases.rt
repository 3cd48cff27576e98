//! Evaluations and verdicts where values are at places of a bank, as they were worked by hand.
ghost use Rattle.std.specs.Prelude.{◌≡◌, ◌<◌, ℕ, Some, IfOk, length, slice_get};
ghost use Rattle.spec_core.specs.WellSorted.{IsWellSorted, sorts_of};
ghost use Rattle.spec_core.specs.Truth.{AreValuesOf};
ghost use Rattle.bank_machine.specs.Runs.{StandAt};

use crate::values::are_values;
use anyhow::{Context, Result, bail};
use ground_eval::{BankEval, Evaluate, Part, Verdict, place_values, verdict_in, verdict_part};
use sort_check::elaborate_term;
use spec_core::{Goal, Signature, Spec, VarInfo};
use spec_syntax::read_term;
use std::alloc::Global;
use term_core::Term;
use value_bank::{Bank, ValueId};

/// Whether the case comes out as it is written. It is one of these, where the values are those of
/// the goal's variables in their order, and of a part those of its first variables alone:
///
/// - `case run GOAL BUDGET VALUE .. -> VALUE COST`, of the left side of the goal's first
///   conclusion,
///   or `-> spent`
/// - `case verdict GOAL BUDGET VALUE .. -> VERDICT`
/// - `case part GOAL BUDGET VALUE .. -> VERDICT`, or `-> looks NUMBER`
pub fn holds(alloc: Global, spec: &Spec, line: &str) -> Result<bool>
    requires fine { IsWellSorted spec.now }
{
    let words: Vec<&str> = line.split_whitespace().collect(alloc)?;
    let Some(arrow) = words.iter().position(|word| *word == "->") else {
        bail!("a case has no answer");
    };
    let (asked, answer) = words.split_at(arrow);
    let Some((_, answer)) = answer.split_first() else {
        bail!("a case has no answer");
    };
    let ["case", kind, goal, budget, values @ ..] = asked else {
        bail!("a case asks nothing");
    };
    let number_of_goal = number_of(spec, goal)?;
    let goal = &spec.goals.as_slice()[number_of_goal];
    let budget = number(budget)?;
    let values = terms(alloc, &spec.sig, values)?;
    match *kind {
        "run" => runs(alloc, spec, goal, &values, budget, answer),
        "verdict" => is_verdict(alloc, spec, goal, &values, budget, answer),
        "part" => is_part(alloc, spec, goal, &values, budget, answer),
        _ => bail!("a case asks something else"),
    }
}

/// Whether the left side of the goal's first conclusion has this value at this cost, or none.
fn runs(
    alloc: Global,
    spec: &Spec,
    goal: &Goal,
    values: &[Term],
    budget: u32,
    answer: &[&str],
) -> Result<bool>
    requires fine { IsWellSorted spec.now }
    requires listed { (k : ℕ) × (slice_get spec.now.goals k ≡ Some goal.now) }
{
    let Some(conclusion) = goal.conclusions.as_slice().first() else {
        bail!("a goal has no conclusion");
    };
    let mut bank = Bank::new(alloc)?;
    let places = placed(alloc, &mut bank, spec, goal.vars.as_slice(), values)?;
    match bank.run(alloc, spec, &conclusion.left, &places, budget)? {
        BankEval::Spent => Ok(matches!(answer, ["spent"])),
        BankEval::Value { id, steps } => {
            let [value, cost] = answer else {
                return Ok(false);
            };
            let Ok(found) = bank.term(alloc, id) else {
                bail!("a value isn't given");
            };
            Ok(found.same(&term(alloc, &spec.sig, value)?) && steps == number(cost)?)
        }
    }
}

/// Whether this is the goal's verdict.
fn is_verdict(
    alloc: Global,
    spec: &Spec,
    goal: &Goal,
    values: &[Term],
    budget: u32,
    answer: &[&str],
) -> Result<bool>
    requires fine { IsWellSorted spec.now }
    requires listed { (k : ℕ) × (slice_get spec.now.goals k ≡ Some goal.now) }
{
    let mut bank = Bank::new(alloc)?;
    let places = placed(alloc, &mut bank, spec, goal.vars.as_slice(), values)?;
    let verdict = verdict_in(alloc, &mut bank, spec, goal, &places, budget)?;
    Ok(matches!(answer, [word] if *word == word_of(verdict)))
}

/// Whether this is the verdict of all values that go on with these, or the variable that is looked
/// at.
fn is_part(
    alloc: Global,
    spec: &Spec,
    goal: &Goal,
    values: &[Term],
    budget: u32,
    answer: &[&str],
) -> Result<bool>
    requires fine { IsWellSorted spec.now }
    requires listed { (k : ℕ) × (slice_get spec.now.goals k ≡ Some goal.now) }
{
    let vars = goal.vars.as_slice();
    if values.len() > vars.len() {
        bail!("there are more values than variables");
    }
    let mut bank = Bank::new(alloc)?;
    let places = placed(alloc, &mut bank, spec, &vars[..values.len()], values)?;
    match verdict_part(alloc, &mut bank, spec, goal, &places, budget)? {
        Part::All(verdict) => Ok(matches!(answer, [word] if *word == word_of(verdict))),
        Part::Looks(variable) => match answer {
            ["looks", word] => Ok(variable.0 == number(word)?),
            _ => Ok(false),
        },
    }
}

/// The places of values of these variables, one for each.
fn placed(
    alloc: Global,
    bank: &mut Bank,
    spec: &Spec,
    vars: &[VarInfo],
    values: &[Term],
) -> Result<Vec<ValueId>>
    ensures are { IfOk result (λ _. AreValuesOf spec.now (sorts_of vars.now) values.now) }
    ensures stand { IfOk result (λ ids. StandAt bank.new ids.items values.now) }
{
    if !are_values(spec, vars, values) {
        bail!("these are no values of the variables");
    }
    Ok(place_values(alloc, bank, values)?)
}

fn word_of(verdict: Verdict) -> &'static str {
    match verdict {
        Verdict::Holds => "holds",
        Verdict::Fails => "fails",
        Verdict::Spent => "spent",
    }
}

/// The number of the goal of this name.
fn number_of(spec: &Spec, name: &str) -> Result<usize>
    ensures { IfOk result (λ n. n < length spec.now.goals) }
{
    let goals = spec.goals.as_slice();
    for number in 0..goals.len() {
        if goals[number].name.as_bytes() == name.as_bytes() {
            return Ok(number);
        }
    }
    bail!("no goal has this name")
}

fn terms(alloc: Global, sig: &Signature, words: &[&str]) -> Result<Vec<Term>> {
    let mut made = Vec::new(alloc);
    for word in words {
        made.push(term(alloc, sig, word)?)?;
    }
    Ok(made)
}

/// The term of this text, which has no blanks and no variables.
fn term(alloc: Global, sig: &Signature, text: &str) -> Result<Term> {
    let Ok(raw) = read_term(alloc, text.as_bytes()) else {
        bail!("a term isn't read");
    };
    match elaborate_term(alloc, sig, &raw) {
        Ok(term) => Ok(term),
        Err(fault) => bail!("a term isn't sorted: {fault}"),
    }
}

fn number(word: &str) -> Result<u32> {
    word.parse::<u32>().context("this is no number")
}
