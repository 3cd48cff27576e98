//! `draw_goal`, and the names of a goal's variables.

ghost use Rattle.std.specs.Prelude.{◌≡◌, ◌++◌, IfOk, OnOk};
ghost use Rattle.clause_core.specs.Clauses.{sides_of};
ghost use Rattle.page_core.specs.Pages.{after};
ghost use Rattle.proof_words.specs.GoalEvents.{goal_events, goal_names as names_of_goal};

use crate::clauses::draw_implication;
use crate::naming::{Naming, names_at, own_names};
use page_core::Page;
use spec_core::{Equation, Goal, Signature};
use std::alloc::Global;
use term_core::{Name, OutOfMemory, SymId, Term, Terms};

/// Draws the goal as it is written, with its own names.
pub fn draw_goal(
    page: &mut Page,
    alloc: Global,
    sig: &Signature,
    goal: &Goal,
) -> Result<(), OutOfMemory>
    ensures { OnOk result (page.new ≡ after page.old (goal_events sig.now goal.now)) }
{
    let names = own_names(alloc, goal.vars.as_slice())?;
    let naming = Naming {
        alloc,
        sig,
        names: &names,
    };
    let premises = goal.premises.as_slice();
    draw_implication(page, &naming, None, premises, goal.conclusions.as_slice())
}

/// The names of the variables of the goal's clause, which are numbered by first occurrence.
pub fn goal_names(alloc: Global, goal: &Goal) -> Result<Vec<Name>, OutOfMemory>
    ensures { IfOk result (λ names. names.items ≡ names_of_goal goal.now) }
{
    let mut sides = Vec::new(alloc);
    push_sides(alloc, goal.premises.as_slice(), &mut sides)?;
    push_sides(alloc, goal.conclusions.as_slice(), &mut sides)?;
    // Any symbol does: its term has the variables of all sides.
    let whole = Term::app(SymId(0), Terms::from_vec(alloc, sides)?);
    let numbers = whole.vars(alloc)?;
    names_at(alloc, goal.vars.as_slice(), numbers.as_slice())
}

/// Adds the sides of the equations.
fn push_sides(
    alloc: Global,
    equations: &[Equation],
    sides: &mut Vec<Term>,
) -> Result<(), OutOfMemory>
    ensures { OnOk result (sides.new.items ≡ sides.old.items ++ sides_of equations.now) }
{
    for equation in equations {
        sides.push(equation.left.copy(alloc)?)?;
        sides.push(equation.right.copy(alloc)?)?;
    }
    Ok(())
}
