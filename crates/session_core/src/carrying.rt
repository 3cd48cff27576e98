//! A goal or a step carried out, or the first reason why it isn't.

ghost use Rattle.std.specs.Prelude.{map};
ghost use Rattle.session_core.specs.States.{State as StateOf};
ghost use Rattle.session_core.specs.Taking.{CarriesOut, KeepsSound};
ghost use Rattle.session_core.specs.Value.{IsChange, kept_of};

use crate::commands::Command;
use crate::errors::SessionError;
use crate::kept_goals::{KeptGoal, has_number, is_open, numbers_of, push_goal};
use block_steps::TakenSteps;
use clause_core::{Step, of_goal, within};
use spec_admit::Admitted;
use std::alloc::Global;
use term_core::Name;
use term_order::TermOrder;

/// Carries out a goal or a step, and answers how many nodes have no step then.
pub(crate) fn carry_out<O: TermOrder>(
    goals: &mut Vec<KeptGoal>,
    alloc: Global,
    admitted: &Admitted<O>,
    command: &Command,
) -> Result<u32, SessionError>
    requires change { IsChange command.now }
    requires carried { (state : StateOf) × KeepsSound (O.above admitted.now.order)
        admitted.now.spec state (map kept_of goals.old.items) }
    ensures { (state : StateOf) → KeepsSound (O.above admitted.now.order) admitted.now.spec state
        (map kept_of goals.old.items) →
        CarriesOut (O.above admitted.now.order) admitted.now.spec state command.now
        (map kept_of goals.old.items) (map kept_of goals.new.items) result }
{
    match command {
        Command::Goal(name) => begin_goal(goals, alloc, admitted, name),
        Command::Step(step) => take_step(goals, alloc, admitted, step),
        Command::Undo => unreachable!(),
    }
}

/// Puts the goal of this name under work.
fn begin_goal<O: TermOrder>(
    goals: &mut Vec<KeptGoal>,
    alloc: Global,
    admitted: &Admitted<O>,
    name: &Name,
) -> Result<u32, SessionError>
    requires { (state : StateOf) × KeepsSound (O.above admitted.now.order)
        admitted.now.spec state (map kept_of goals.old.items) }
    ensures { (state : StateOf) → KeepsSound (O.above admitted.now.order) admitted.now.spec state
        (map kept_of goals.old.items) →
        CarriesOut (O.above admitted.now.order) admitted.now.spec state (Command.Goal name.now)
        (map kept_of goals.old.items) (map kept_of goals.new.items) result }
{
    clause_core::one_relation(&admitted.order);
    if is_open(goals.as_slice()) {
        return Err(SessionError::GoalUnderWork);
    }
    let Some((number, goal)) = admitted.spec.goal_named(name) else {
        return Err(SessionError::UnknownGoal);
    };
    let number = number as u32;
    let proved = numbers_of(alloc, goals.as_slice())?;
    if has_number(proved.as_slice(), number) {
        return Err(SessionError::GoalTwice);
    }
    let start = of_goal(alloc, goal)?;
    if !within(&start) {
        return Err(SessionError::Limit);
    }
    let kept = KeptGoal {
        number,
        taken: TakenSteps::new(alloc, start)?,
        lengths: Vec::new(alloc),
    };
    push_goal(goals, kept)?;
    Ok(1)
}

/// Takes the step at the first node without one of the goal under work.
fn take_step<O: TermOrder>(
    goals: &mut Vec<KeptGoal>,
    alloc: Global,
    admitted: &Admitted<O>,
    step: &Step,
) -> Result<u32, SessionError>
    requires { (state : StateOf) × KeepsSound (O.above admitted.now.order)
        admitted.now.spec state (map kept_of goals.old.items) }
    ensures { (state : StateOf) → KeepsSound (O.above admitted.now.order) admitted.now.spec state
        (map kept_of goals.old.items) →
        CarriesOut (O.above admitted.now.order) admitted.now.spec state (Command.Step step.now)
        (map kept_of goals.old.items) (map kept_of goals.new.items) result }
{
    clause_core::one_relation(&admitted.order);
    if !is_open(goals.as_slice()) {
        return Err(SessionError::NoGoal);
    }
    let last = goals.len() - 1;
    let proved = numbers_of(alloc, &goals.as_slice()[..last])?;
    let goal = &mut goals[last];
    goal.take(alloc, admitted, proved.as_slice(), step)?;
    Ok((goal.taken.nodes.len() - goal.taken.links.len()) as u32)
}
