//! The claims of the proved goals.

ghost use Rattle.std.specs.Prelude.{◌≡◌, ◌≤◌, List, IfOk, drop, length, map};
ghost use Rattle.clause_core.specs.declared.steps.Step.{Step as StepOf};
ghost use Rattle.session_core.specs.States.{proves_named};
ghost use Rattle.session_core.specs.Value.{kept_of};
ghost use Rattle.session_core.specs.Written.{BeginWithClaims, BeginsWithGoal, step_commands};

use crate::commands::Command;
use crate::kept_goals::KeptGoal;
use block_steps::copy_step;
use clause_core::{Block, Claim, Outcome, Step};
use std::alloc::Global;
use term_core::{OutOfMemory, Seq, front};

/// The claims that these goals are proved by the steps among the commands.
pub(crate) fn claims_of(
    alloc: Global,
    goals: &[KeptGoal],
    commands: &[Command],
) -> Result<Vec<Claim>, OutOfMemory>
    requires { BeginWithClaims commands.now (map kept_of goals.now) }
    ensures { IfOk result (λ made. (b : BeginWithClaims commands.now (map kept_of goals.now)) →
        made.items ≡ b.claims) }
{
    let mut claims = Vec::with_capacity(alloc, goals.len())?;
    let mut left = goals;
    let mut rest = commands;
    while let Some((goal, others)) = front(left) {
        let count = goal.taken.links.len();
        claims.push(claim_of(alloc, rest, count)?)?;
        rest = after(rest, count + 1);
        left = others;
    }
    Ok(claims)
}

/// The commands after the first `count`.
fn after(commands: &[Command], count: usize) -> &[Command]
    requires { count ≤ length commands.now }
    ensures { result.now ≡ drop count commands.now }
{
    &commands[count..]
}

/// The claim that the goal at the front is proved by the next `count` commands.
fn claim_of(alloc: Global, commands: &[Command], count: usize) -> Result<Claim, OutOfMemory>
    requires { BeginsWithGoal commands.now count }
    ensures { IfOk result (λ claim. (b : BeginsWithGoal commands.now count) →
        claim ≡ proves_named b.name b.steps) }
{
    let Some((first, others)) = front(commands) else {
        unreachable!();
    };
    let Command::Goal(name) = first else {
        unreachable!();
    };
    let steps = steps_of(alloc, &others[..count])?;
    Ok(Claim {
        goal: name.copy(alloc)?,
        outcome: Outcome::Proved(Block { steps }),
    })
}

/// The steps of commands that all are steps.
fn steps_of(alloc: Global, commands: &[Command]) -> Result<Seq<Step>, OutOfMemory>
    requires { (steps : List StepOf) × (commands.now ≡ step_commands steps) }
    ensures { IfOk result (λ made. commands.now ≡ step_commands made) }
{
    let mut steps = Seq::new(alloc);
    for command in commands {
        let Command::Step(step) = command else {
            unreachable!();
        };
        steps.push(copy_step(alloc, step)?)?;
    }
    Ok(steps)
}
