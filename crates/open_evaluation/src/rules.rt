//! Rules and goals with the numbers of the extended signature.

ghost use Rattle.std.specs.Prelude.{◌≡◌, IfOk, map};
ghost use Rattle.open_evaluation.specs.Shifted.{shifted_equation, shifted_guard, shifted_rule};
ghost use Rattle.open_evaluation.specs.Shifted.{shifted_goal as goal_with_numbers};

use crate::terms::shift_term;
use spec_core::{Equation, Goal, Guard, Rule, VarInfo};
use std::alloc::Global;
use term_core::{OutOfMemory, Seq};

/// The goal with the numbers that symbols have once `constants` constructors come after the
/// first `constructors`. A number past those of symbols is answered as memory that isn't there.
pub fn shifted_goal(
    alloc: Global,
    constructors: u32,
    constants: u32,
    goal: &Goal,
) -> Result<Goal, OutOfMemory>
    ensures { IfOk result (λ made. made ≡ goal_with_numbers constructors constants goal.now) }
{
    let premises = goal.premises.as_slice();
    let conclusions = goal.conclusions.as_slice();
    Ok(Goal {
        name: goal.name.copy(alloc)?,
        vars: copy_vars(alloc, goal.vars.as_slice())?,
        premises: shift_equations(alloc, constructors, constants, premises)?,
        conclusions: shift_equations(alloc, constructors, constants, conclusions)?,
    })
}

/// The rules in their order, with the new numbers.
pub(crate) fn shift_rules(
    alloc: Global,
    constructors: u32,
    constants: u32,
    rules: &[Rule],
) -> Result<Seq<Rule>, OutOfMemory>
    ensures { IfOk result (λ made. made ≡ map (shifted_rule constructors constants) rules.now) }
{
    let mut made = Seq::new(alloc);
    for rule in rules {
        made.push(shift_rule(alloc, constructors, constants, rule)?)?;
    }
    Ok(made)
}

fn shift_rule(
    alloc: Global,
    constructors: u32,
    constants: u32,
    rule: &Rule,
) -> Result<Rule, OutOfMemory>
    ensures { IfOk result (λ made. made ≡ shifted_rule constructors constants rule.now) }
{
    Ok(Rule {
        vars: copy_vars(alloc, rule.vars.as_slice())?,
        left: shift_term(alloc, constructors, constants, &rule.left)?,
        right: shift_term(alloc, constructors, constants, &rule.right)?,
        guards: shift_guards(alloc, constructors, constants, rule.guards.as_slice())?,
    })
}

fn shift_guards(
    alloc: Global,
    constructors: u32,
    constants: u32,
    guards: &[Guard],
) -> Result<Seq<Guard>, OutOfMemory>
    ensures { IfOk result (λ made. made ≡ map (shifted_guard constructors constants) guards.now) }
{
    let mut made = Seq::new(alloc);
    for guard in guards {
        made.push(Guard {
            test: shift_term(alloc, constructors, constants, &guard.test)?,
            wanted: guard.wanted,
        })?;
    }
    Ok(made)
}

fn shift_equations(
    alloc: Global,
    constructors: u32,
    constants: u32,
    equations: &[Equation],
) -> Result<Seq<Equation>, OutOfMemory>
    ensures { IfOk result (λ made.
        made ≡ map (shifted_equation constructors constants) equations.now) }
{
    let mut made = Seq::new(alloc);
    for equation in equations {
        made.push(Equation {
            left: shift_term(alloc, constructors, constants, &equation.left)?,
            right: shift_term(alloc, constructors, constants, &equation.right)?,
        })?;
    }
    Ok(made)
}

fn copy_vars(alloc: Global, vars: &[VarInfo]) -> Result<Seq<VarInfo>, OutOfMemory>
    ensures { IfOk result (λ made. made ≡ vars.now) }
{
    let mut made = Seq::new(alloc);
    for var in vars {
        made.push(VarInfo {
            name: var.name.copy(alloc)?,
            sort: var.sort,
        })?;
    }
    Ok(made)
}
