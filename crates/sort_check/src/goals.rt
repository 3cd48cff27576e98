//! Goals: names and bindings.

ghost use Rattle.std.specs.Prelude.{◌≡◌, ◌≤◌, [], IfOk, length, map, position};
ghost use Rattle.std.specs.List.{AllZip};
ghost use Rattle.std.specs.Str.{bytes_eq};
ghost use Rattle.spec_core.specs.Declarations.{IsDeclared, IsNewName};
ghost use Rattle.spec_core.specs.Findings.{each_after, test};
ghost use Rattle.sort_check.specs.Answers.{Answers};
ghost use Rattle.sort_check.specs.GoalTests.{bind_tests, binds_tests, bound, clause_tests};
ghost use Rattle.sort_check.specs.GoalTests.{goal_tests};
ghost use Rattle.sort_check.specs.Goals.{GoalStands};
ghost use Rattle.sort_check.specs.declared.faults.SortFault.TheVariants.{Sort};
ghost use Rattle.sort_check.specs.declared.faults.SortKind.TheVariants.{
  RepeatedName as repeated_name,
};

use crate::entries::{Entry, add};
use crate::faults::{Part, SortFault, SortKind, fault};
use crate::limits::VARIABLES;
use crate::walk::Walk;
use spec_core::{Goal, Signature};
use spec_grammar::{RawBind, RawGoal, RawName};
use std::alloc::Global;
use term_core::{OutOfMemory, Seq};

/// The goals that raw ones stand for, in their order.
pub(crate) fn goals_of(
    alloc: Global,
    sig: &Signature,
    raws: &[RawGoal],
) -> Result<Seq<Goal>, SortFault>
    requires declared { IsDeclared sig.now }
    ensures { Answers (each_after (goal_tests sig.now) [] raws.now)
        (λ goals. AllZip (GoalStands sig.now) raws.now goals) result }
{
    let mut made = Seq::new(alloc);
    for (place, raw) in raws.iter().enumerate() {
        check_name(&raws[..place], &raw.head)?;
        made.push(goal_of(alloc, sig, raw)?)?;
    }
    Ok(made)
}

/// Tests that no goal before has this name.
fn check_name(before: &[RawGoal], name: &RawName) -> Result<(), SortFault>
    ensures { Answers
        (test (Sort name.now.at repeated_name)
        (¬ (IsNewName name.now.name (map (λ goal. goal.head.name) before.now)))) (λ _. Unit {0})
        result }
{
    match goal_named(before, name.name.as_bytes()) {
        Some(_) => Err(fault(name.at, SortKind::RepeatedName)),
        None => Ok(()),
    }
}

/// The first of the goals with this name.
fn goal_named(goals: &[RawGoal], name: &[u8]) -> Option<usize>
    ensures { result ≡ position (λ goal. bytes_eq name.now goal.head.name) goals.now }
{
    goals
        .iter()
        .position(|goal| name == goal.head.name.as_bytes())
}

/// The goal that a raw one stands for.
fn goal_of(alloc: Global, sig: &Signature, raw: &RawGoal) -> Result<Goal, SortFault>
    requires declared { IsDeclared sig.now }
    ensures { Answers (clause_tests sig.now raw.now) (λ goal. GoalStands sig.now raw.now goal)
        result }
{
    let mut entries = bindings(alloc, sig, raw.binds.as_slice())?;
    let walk = Walk {
        alloc,
        sig,
        part: Part::Goal,
    };
    let clause = walk.clause(&mut entries, raw)?;
    let vars = walk.variables(&mut entries, raw)?;
    Ok(Goal {
        name: raw.head.name.copy(alloc)?,
        vars,
        premises: clause.premises,
        conclusions: clause.conclusions,
    })
}

/// The variables that bindings give, of which there are at most 16.
fn bindings(alloc: Global, sig: &Signature, raws: &[RawBind]) -> Result<Vec<Entry>, SortFault>
    ensures few { IfOk result (λ entries. length entries.items ≤ 16) }
    ensures answer { Answers (binds_tests sig.now raws.now)
        (λ entries. entries.items ≡ map (bound sig.now) raws.now) result }
{
    let mut entries = Vec::new(alloc);
    for (place, raw) in raws.iter().enumerate() {
        check_bind(sig, &raws[..place], raw)?;
        add(&mut entries, bound_by(alloc, sig, raw)?)?;
    }
    match raws.get(VARIABLES) {
        Some(raw) => Err(fault(raw.name.at, SortKind::TooManyVariables)),
        None => Ok(entries),
    }
}

/// Tests that no symbol and no binding before has the variable's name, and that its sort is
/// declared.
fn check_bind(sig: &Signature, before: &[RawBind], raw: &RawBind) -> Result<(), SortFault>
    ensures { Answers (bind_tests sig.now before.now raw.now) (λ _. Unit {0}) result }
{
    let name = raw.name.name.as_bytes();
    if sig.symbol(name).is_some() || bind_named(before, name).is_some() {
        return Err(fault(raw.name.at, SortKind::RepeatedName));
    }
    if sig.sort(raw.sort.name.as_bytes()).is_none() {
        return Err(fault(raw.sort.at, SortKind::UnknownName));
    }
    Ok(())
}

/// The first of the bindings with this name.
fn bind_named(binds: &[RawBind], name: &[u8]) -> Option<usize>
    ensures { result ≡ position (λ bind. bytes_eq name.now bind.name.name) binds.now }
{
    binds
        .iter()
        .position(|bind| name == bind.name.name.as_bytes())
}

/// The variable that a binding gives.
fn bound_by(alloc: Global, sig: &Signature, raw: &RawBind) -> Result<Entry, OutOfMemory>
    ensures { IfOk result (λ entry. entry ≡ bound sig.now raw.now) }
{
    Ok(Entry {
        name: raw.name.name.copy(alloc)?,
        at: raw.name.at,
        sort: sig.sort(raw.sort.name.as_bytes()),
    })
}
