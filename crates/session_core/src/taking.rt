//! A step taken at the first node without one.

ghost use Rattle.std.specs.Prelude.{◌≡◌, ◌⊎◌, ◌<◌, ◌≤◌, ◌+◌, ◌↔◌, ◌++◌, ◌∷◌, ℕ, [], List, Ok, Err};
ghost use Rattle.std.specs.Prelude.{Contains, IsTrue, MatchResult, OnErr, OnOk, length};
ghost use Rattle.std.specs.Prelude.{Result as AnyResult};
ghost use Rattle.clause_core.specs.declared.reports.Claim.{Claim as ClaimOf};
ghost use Rattle.acceptance.specs.AllowedAnswers.{IsWholeBlock};
ghost use Rattle.acceptance.specs.Strict.{AllAreAllowed};
ghost use Rattle.claimed_goals.specs.Tracking.{AreProved};
ghost use Rattle.inference_rules.specs.Answers.{clauses_of};
ghost use Rattle.inference_rules.specs.Nodes.{AreNodes};
ghost use Rattle.session_core.specs.Accepting.{HasNeitherChild, HasNeitherReference, IsNeither};
ghost use Rattle.session_core.specs.States.{Work as WorkOf};
ghost use Rattle.session_core.specs.Taking.{IsOpenGoal, MakesRelated, TakesKept, TestsAllowed};
ghost use Rattle.session_core.specs.Taking.{TestsLast};
ghost use Rattle.session_core.specs.Value.{kept_of};

use crate::errors::SessionError;
use crate::kept_goals::KeptGoal;
use crate::lengths::{length_of_claim, length_with};
use acceptance::{Allowed, allowed};
use block_steps::TakenSteps;
use clause_core::{Children, Relation, Step};
use inference_rules::{StepError, children};
use proof_script::MOST_CLAIM_BYTES;
use spec_admit::Admitted;
use std::alloc::Global;
use term_core::{Name, OutOfMemory};
use term_order::TermOrder;

impl KeptGoal {
    /// Takes the step of the first node without one, with the goals of these numbers proved. What
    /// is kept stays if the step isn't taken.
    pub(crate) fn take<O: TermOrder>(
        &mut self,
        alloc: Global,
        admitted: &Admitted<O>,
        proved: &[u32],
        step: &Step,
    ) -> Result<(), SessionError>
        requires { (claims : List ClaimOf) × (work : WorkOf)
            × IsOpenGoal (O.above admitted.now.order) admitted.now.spec claims work
            (kept_of self.old) × AreProved admitted.now.spec claims proved.now }
        ensures { (claims : List ClaimOf) (work : WorkOf) →
            IsOpenGoal (O.above admitted.now.order) admitted.now.spec claims work
            (kept_of self.old) → AreProved admitted.now.spec claims proved.now →
            TakesKept (O.above admitted.now.order) admitted.now.spec claims work step.now
            (kept_of self.old) (kept_of self.new) result }
    {
        clause_core::one_relation(&admitted.order);
        clause_core::tidying_laws();
        descent::children_are_sorted(&admitted.order);
        let spec = &admitted.spec;
        let name = &spec.goals.as_slice()[self.number as usize].name;
        let made = made_by(alloc, admitted, proved, &self.taken, step)?;
        let total = length_with(alloc, &spec.sig, self.lengths.as_slice(), step)?;
        self.taken.add(alloc, made)?;
        if let Err(error) = test_last(alloc, &self.taken, name, total) {
            self.taken.take_back();
            return Err(error);
        }
        if let Err(OutOfMemory) = push_length(&mut self.lengths, total) {
            self.taken.take_back();
            return Err(SessionError::OutOfMemory);
        }
        Ok(())
    }
}

/// What the step of the first node without one makes, if nothing in it is Neither.
fn made_by<O: TermOrder>(
    alloc: Global,
    admitted: &Admitted<O>,
    proved: &[u32],
    taken: &TakenSteps,
    step: &Step,
) -> Result<Children, SessionError>
    requires next { length taken.now.links.items < length taken.now.nodes.items }
    requires few { length taken.now.nodes.items ≤ 10000 }
    requires nodes { AreNodes admitted.now.spec.sig (clauses_of taken.now.nodes.items) }
    ensures { MakesRelated (O.above admitted.now.order) admitted.now.spec (Contains proved.now)
        (clauses_of taken.now.nodes.items) (length taken.now.links.items) step.now result }
{
    let nodes = taken.nodes.as_slice();
    let node = taken.links.len() as u32;
    let order = &admitted.order;
    match children(alloc, &admitted.spec, order, proved, nodes, node, step) {
        Ok(made) => {
            if is_neither(&made) {
                return Err(SessionError::NotSmaller);
            }
            Ok(made)
        }
        Err(StepError::Why(why)) => Err(SessionError::Step(why)),
        Err(StepError::OutOfMemory) => Err(SessionError::OutOfMemory),
    }
}

/// Whether a child or a reference is Neither.
fn is_neither(made: &Children) -> bool
    ensures { IsTrue result ↔ IsNeither made.now }
{
    has_neither_child(made) || has_neither_reference(made)
}

fn has_neither_child(made: &Children) -> bool
    ensures { IsTrue result ↔ HasNeitherChild made.now }
{
    for child in made.clauses.as_slice() {
        if let Relation::Neither = child.relation {
            return true;
        }
    }
    false
}

fn has_neither_reference(made: &Children) -> bool
    ensures { IsTrue result ↔ HasNeitherReference made.now }
{
    for reference in made.refs.as_slice() {
        if let Relation::Neither = reference.relation {
            return true;
        }
    }
    false
}

/// Tests the last step that is taken: if each node has a step all must be allowed, and the claim's
/// lines mustn't be too long. `total` counts the bytes of the lines of all steps.
fn test_last(
    alloc: Global,
    taken: &TakenSteps,
    name: &Name,
    total: usize,
) -> Result<(), SessionError>
    requires { length taken.now.nodes.items ≡ length taken.now.links.items →
        IsWholeBlock taken.now.links.items }
    ensures { TestsLast (length taken.now.nodes.items) taken.now.links.items name.now total result }
{
    test_allowed(alloc, taken)?;
    if length_of_claim(alloc, name, taken.nodes.len(), total)? > MOST_CLAIM_BYTES {
        return Err(SessionError::Limit);
    }
    Ok(())
}

/// Tests that all is allowed if each node has a step.
fn test_allowed(alloc: Global, taken: &TakenSteps) -> Result<(), SessionError>
    requires { length taken.now.nodes.items ≡ length taken.now.links.items →
        IsWholeBlock taken.now.links.items }
    ensures { TestsAllowed (length taken.now.nodes.items) taken.now.links.items result }
{
    if taken.nodes.len() != taken.links.len() {
        return Ok(());
    }
    match allowed(alloc, taken.links.as_slice())? {
        Allowed::All => Ok(()),
        Allowed::Not { .. } => Err(SessionError::NotSmaller),
    }
}

/// Appends the length, or nothing.
fn push_length(lengths: &mut Vec<usize>, length: usize) -> Result<(), OutOfMemory>
    ensures pushed { OnOk result (lengths.new.items ≡ lengths.old.items ++ length ∷ []) }
    ensures same { OnErr result (lengths.new.items ≡ lengths.old.items) }
{
    lengths.push(length)?;
    Ok(())
}
