//! `goal_line`: a goal as a line of a text.

ghost use Rattle.term_core.specs.declared.ids.SortId.{SortId as SortIdOf};
ghost use Rattle.spec_core.specs.Sorts.{Sorted};
ghost use Rattle.spec_core.specs.WellSorted.{EquationsAreSorted, sorts_of};

use crate::naming::SortNames;
use growing_specs::goal_is_sorted;
use spec_core::{Equation, Goal, Signature, VarInfo};
use std::alloc::Global;
use term_core::OutOfMemory;

/// The goal as a text has it, in a line without its end: `goal NAME(x : S) : l = r => l = r`.
pub fn goal_line(
    alloc: Global,
    sorts: &SortNames,
    sig: &Signature,
    goal: &Goal,
) -> Result<Vec<u8>, OutOfMemory> {
    let mut text = Vec::from_slice(alloc, b"goal ")?;
    text.extend_from_slice(goal.name.as_bytes())?;
    append_variables(sorts, goal.vars.as_slice(), &mut text)?;
    text.extend_from_slice(b" : ")?;
    if !goal_is_sorted(alloc, sig, goal)? {
        return Ok(text);
    }
    let vars = goal.vars.as_slice();
    let premises = goal.premises.as_slice();
    let conclusions = goal.conclusions.as_slice();
    append_equations(alloc, sig, vars, premises, b", ", &mut text)?;
    if !premises.is_empty() || conclusions.is_empty() {
        text.extend_from_slice(b" => ")?;
    }
    append_equations(alloc, sig, vars, conclusions, b" | ", &mut text)?;
    Ok(text)
}

/// Appends `(x : S, ..)`, or nothing if there are no variables.
fn append_variables(
    sorts: &SortNames,
    vars: &[VarInfo],
    text: &mut Vec<u8>,
) -> Result<(), OutOfMemory> {
    if vars.is_empty() {
        return Ok(());
    }
    for (number, var) in vars.iter().enumerate() {
        text.extend_from_slice(if number == 0 { b"(" } else { b", " })?;
        text.extend_from_slice(var.name.as_bytes())?;
        text.extend_from_slice(b" : ")?;
        text.extend_from_slice(sorts.name(var.sort))?;
    }
    text.push(b')')?;
    Ok(())
}

/// Appends the equations with this sign between them.
fn append_equations(
    alloc: Global,
    sig: &Signature,
    vars: &[VarInfo],
    equations: &[Equation],
    sign: &[u8],
    text: &mut Vec<u8>,
) -> Result<(), OutOfMemory>
    requires { EquationsAreSorted sig.now (sorts_of vars.now) equations.now }
{
    for (number, equation) in equations.iter().enumerate() {
        if number > 0 {
            text.extend_from_slice(sign)?;
        }
        append_equation(alloc, sig, vars, equation, text)?;
    }
    Ok(())
}

fn append_equation(
    alloc: Global,
    sig: &Signature,
    vars: &[VarInfo],
    equation: &Equation,
    text: &mut Vec<u8>,
) -> Result<(), OutOfMemory>
    requires { (s : SortIdOf) × Sorted sig.now (sorts_of vars.now) equation.now.left s
        × Sorted sig.now (sorts_of vars.now) equation.now.right s }
{
    sig.print(alloc, vars, &equation.left, text)?;
    text.extend_from_slice(b" = ")?;
    sig.print(alloc, vars, &equation.right, text)
}
