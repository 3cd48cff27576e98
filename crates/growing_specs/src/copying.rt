//! Copies of goals.

ghost use Rattle.std.specs.Prelude.{◌≡◌, IfOk};

use clause_core::copy_equations;
use spec_core::{Goal, VarInfo};
use std::alloc::Global;
use term_core::{OutOfMemory, Seq};

/// A copy of the goal.
pub fn copy_goal(alloc: Global, goal: &Goal) -> Result<Goal, OutOfMemory>
    ensures { IfOk result (λ made. made ≡ goal.now) }
{
    Ok(Goal {
        name: goal.name.copy(alloc)?,
        vars: copy_vars(alloc, goal.vars.as_slice())?,
        premises: Seq::from_vec(copy_equations(alloc, goal.premises.as_slice())?),
        conclusions: Seq::from_vec(copy_equations(alloc, goal.conclusions.as_slice())?),
    })
}

fn copy_vars(alloc: Global, vars: &[VarInfo]) -> Result<Seq<VarInfo>, OutOfMemory>
    ensures { IfOk result (λ made. made ≡ vars.now) }
{
    let mut made = Seq::new(alloc);
    for var in vars {
        made.push(VarInfo {
            name: var.name.copy(alloc)?,
            sort: var.sort,
        })?;
    }
    Ok(made)
}
