//! What is kept of each goal, and how the last step is taken back.

ghost use Rattle.std.specs.Prelude.{◌≡◌, ◌↔◌, ◌++◌, ◌∷◌, ◌-◌, List, [], Contains, IfOk, IsTrue};
ghost use Rattle.std.specs.Prelude.{MatchOption, OnErr, OnOk, length, map};
ghost use Rattle.session_core.specs.Kept.{Kept};
ghost use Rattle.session_core.specs.Taking.{HasOpenLast, IsOpenAt};
ghost use Rattle.session_core.specs.Value.{LastStep, kept_of, number_of, without_last};

use block_steps::TakenSteps;
use clause_core::Clause;
use std::alloc::Global;
use term_core::OutOfMemory;

/// What is kept of a goal, which is proved or under work. Its steps are among the commands.
#[derive(Drop)]
pub struct KeptGoal {
    pub number: u32,
    /// Its nodes, and for each step the relations of its children and its references.
    pub taken: TakenSteps,
    /// For each step the bytes up to the end of its line, from that of the first step on.
    pub lengths: Vec<usize>,
}

/// Whether the last goal has a node without a step.
pub(crate) fn is_open(goals: &[KeptGoal]) -> bool
    ensures { IsTrue result ↔ HasOpenLast (map kept_of goals.now) }
{
    match goals.last() {
        Some(goal) => goal.taken.links.len() < goal.taken.nodes.len(),
        None => false,
    }
}

/// The goals before the one under work.
pub(crate) fn finished(goals: &[KeptGoal]) -> &[KeptGoal]
    ensures before { (h : HasOpenLast (map kept_of goals.now)) → map kept_of result.now ≡ h.front }
    ensures all { (HasOpenLast (map kept_of goals.now) → ⊥) → result.now ≡ goals.now }
{
    if is_open(goals) {
        &goals[..goals.len() - 1]
    } else {
        goals
    }
}

/// If the last goal has a node without a step, the number of the first one and its clause.
pub(crate) fn first_open(goals: &[KeptGoal]) -> Option<(usize, &Clause)>
    ensures { MatchOption result (HasOpenLast (map kept_of goals.now) → ⊥)
        (λ p. IsOpenAt (map kept_of goals.now) p.0 p.1.now) }
{
    let goal = goals.last()?;
    let number = goal.taken.links.len();
    let node = goal.taken.nodes.as_slice().get(number)?;
    Some((number, &node.clause))
}

/// The numbers of the goals, in their order.
pub(crate) fn numbers_of(alloc: Global, goals: &[KeptGoal]) -> Result<Vec<u32>, OutOfMemory>
    ensures { IfOk result (λ numbers. numbers.items ≡ map number_of goals.now) }
{
    let mut numbers = Vec::with_capacity(alloc, goals.len())?;
    for goal in goals {
        numbers.push(goal.number)?;
    }
    Ok(numbers)
}

/// Whether the number is among them.
pub(crate) fn has_number(numbers: &[u32], number: u32) -> bool
    ensures { IsTrue result ↔ Contains numbers.now number }
{
    numbers.contains(&number)
}

/// Appends the goal, or nothing.
pub(crate) fn push_goal(goals: &mut Vec<KeptGoal>, goal: KeptGoal) -> Result<(), OutOfMemory>
    ensures pushed { OnOk result (goals.new.items ≡ goals.old.items ++ goal ∷ []) }
    ensures same { OnErr result (goals.new.items ≡ goals.old.items) }
{
    goals.push(goal)?;
    Ok(())
}

/// Drops the last goal.
pub(crate) fn drop_last(goals: &mut Vec<KeptGoal>)
    ensures { (front : List Kept) (last : Kept) → map kept_of goals.old.items ≡ front ++ last ∷ [] →
        map kept_of goals.new.items ≡ front }
{
    goals.pop();
}

/// Takes the last step of the last goal back, and answers how many of its nodes have no step then.
pub(crate) fn take_step_back(goals: &mut Vec<KeptGoal>) -> u32
    requires { LastStep (map kept_of goals.old.items) }
    ensures { (l : LastStep (map kept_of goals.old.items)) →
        (map kept_of goals.new.items ≡ l.front ++ without_last l ∷ [])
        × (result ≡ length l.nodes - length l.links) }
{
    let last = goals.len() - 1;
    let goal = &mut goals[last];
    goal.taken.take_back();
    goal.lengths.pop();
    (goal.taken.nodes.len() - goal.taken.links.len()) as u32
}
