//! `ClaimedGoals`: the goals that the claims so far are on.

ghost use Rattle.std.specs.Prelude.{◌≡◌, ◌<◌, ◌^◌, ◌++◌, ℕ, List, [], ◌∷◌, Some, false, IfOk, OnOk};
ghost use Rattle.std.specs.Prelude.{IsTrue, length, slice_get, slice_index_or};
ghost use Rattle.clause_core.specs.declared.reports.Claim.{Claim as ClaimOf};
ghost use Rattle.spec_core.specs.declared.records.Spec.{Spec as SpecOf};
ghost use Rattle.spec_core.specs.WellSorted.{IsWellSorted};
ghost use Rattle.claimed_goals.specs.Tracking.{IsNumberOf, Tracks};

use clause_core::Outcome;
use spec_core::Spec;
use std::alloc::Global;
use term_core::OutOfMemory;

/// The goals that the claims so far are on, by their numbers.
#[derive(Drop)]
pub struct ClaimedGoals {
    /// Whether a claim is on the goal with this number.
    pub claimed: Vec<bool>,
    /// The numbers of the goals that are proved.
    pub proved: Vec<u32>,
}

impl ClaimedGoals {
    /// The goals of no claims.
    pub fn new(alloc: Global, spec: &Spec) -> Result<ClaimedGoals, OutOfMemory>
        ensures { IfOk result (Tracks spec.now []) }
    {
        Ok(ClaimedGoals {
            claimed: vec![in alloc; false; spec.goals.len()]?,
            proved: Vec::new(alloc),
        })
    }

    /// Whether a claim is on the goal with this number.
    pub fn is_claimed(&self, number: usize) -> bool
        requires { number < length self.now.claimed.items }
        ensures { result ≡ slice_index_or self.now.claimed.items number false }
    {
        self.claimed[number]
    }

    /// Counts a claim with this outcome on the goal with this number.
    pub fn add(&mut self, number: usize, outcome: &Outcome) -> Result<(), OutOfMemory>
        requires within { number < length self.old.claimed.items }
        requires small { number < 2 ^ 32 }
        ensures { OnOk result ((spec : SpecOf) (before : List ClaimOf) (name : List ℕ) →
            IsWellSorted spec → Tracks spec before self.old → IsNumberOf spec name number →
            Tracks spec (before ++ record { goal = name; outcome = outcome.now } ∷ []) self.new) }
    {
        self.claimed[number] = true;
        if let Outcome::Proved(_) = outcome {
            self.proved.push(number as u32)?;
        }
        Ok(())
    }
}
