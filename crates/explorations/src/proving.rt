//! Whether claims prove what they have to.

ghost use Rattle.std.specs.Prelude.{◌≡◌, ◌↔◌, ◌⊎◌, Contains, IsTrue};
ghost use Rattle.acceptance.specs.Claims.{IsProvedBy, SaysProved};
ghost use Rattle.explorations.specs.Proved.{FurtherAreProved, StayProved};

use added_goals::Same;
use clause_core::{Claim, Outcome};
use spec_core::Goal;
use term_core::Name;

/// Whether each new goal is an old one, or is proved by the claims.
pub(crate) fn further_are_proved(old: &[Goal], new: &[Goal], claims: &[Claim]) -> bool
    ensures { IsTrue result ↔ FurtherAreProved old.now new.now claims.now }
{
    new.iter().all(|goal| is_old_or_proved(old, goal, claims))
}

fn is_old_or_proved(old: &[Goal], goal: &Goal, claims: &[Claim]) -> bool
    ensures { IsTrue result
        ↔ (Contains old.now goal.now ⊎ IsProvedBy goal.now.name claims.now) }
{
    is_among(old, goal) || is_proved(claims, &goal.name)
}

fn is_among(goals: &[Goal], goal: &Goal) -> bool
    ensures { IsTrue result ↔ Contains goals.now goal.now }
{
    goals.iter().any(|other| other.is_same(goal))
}

/// Whether each goal that is proved by the claims before is proved by the new ones.
pub(crate) fn stay_proved(before: &[Claim], claims: &[Claim]) -> bool
    ensures { IsTrue result ↔ StayProved before.now claims.now }
{
    for claim in before {
        if !stays_if_proved(claim, claims) {
            return false;
        }
    }
    true
}

/// Whether the claim doesn't prove its goal, or the new claims prove it too.
fn stays_if_proved(claim: &Claim, claims: &[Claim]) -> bool
    ensures { IsTrue result
        ↔ (SaysProved claim.now.outcome → IsProvedBy claim.now.goal claims.now) }
{
    !says_proved(&claim.outcome) || is_proved(claims, &claim.goal)
}

/// Whether some claim is that the goal of this name is proved.
pub fn is_proved(claims: &[Claim], name: &Name) -> bool
    ensures { IsTrue result ↔ IsProvedBy name.now claims.now }
{
    for claim in claims {
        if is_proof_of(claim, name) {
            return true;
        }
    }
    false
}

fn is_proof_of(claim: &Claim, name: &Name) -> bool
    ensures { IsTrue result ↔ ((claim.now.goal ≡ name.now) × SaysProved claim.now.outcome) }
{
    claim.goal.is_same(name) && says_proved(&claim.outcome)
}

fn says_proved(outcome: &Outcome) -> bool
    ensures { IsTrue result ↔ SaysProved outcome.now }
{
    match outcome {
        Outcome::Proved(_) => true,
        Outcome::Refuted { .. } | Outcome::Open(_) => false,
    }
}
