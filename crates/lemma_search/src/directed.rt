//! Lemmas from the goal: generalizations of the clauses at which its proofs are stuck.

use crate::bounds::{MOST_LEMMAS, TRIES_OF_CLAUSE, TRIES_OF_GOAL, stuck};
use crate::exploring::Explorer;
use crate::goals::{are_same, copy_clause, goal_of, size};
use crate::progress::Progress;
use clause_core::{Clause, of_goal};
use generalized_clauses::ranked;
use growing_specs::copy_goal;
use spec_core::Goal;
use std::alloc::Global;
use term_core::{Name, OutOfMemory};

/// How many random lists of values a candidate is tested with, and how many small ones.
const RANDOM_TESTS: u32 = 100;

const SMALL_TESTS: u32 = 400;

/// What lemmas are looked for.
#[derive(Clone, Copy)]
pub(crate) enum Target<'a> {
    Given(&'a Goal),
    Candidate(&'a Clause),
}

/// What was tried for a goal.
#[derive(Drop)]
pub(crate) struct Tried {
    pub(crate) seen: Vec<Clause>,
    pub(crate) tries: u32,
}

impl Tried {
    /// Whether the clause is new, and is remembered now.
    fn is_new(&mut self, alloc: Global, clause: &Clause) -> Result<bool, OutOfMemory> {
        if self.seen.iter().any(|other| are_same(other, clause)) {
            return Ok(false);
        }
        self.seen.push(copy_clause(alloc, clause)?)?;
        Ok(true)
    }
}

impl<'a> Explorer<'a> {
    /// Looks for lemmas among generalizations of the target and of the clauses at which it is
    /// stuck, and then for lemmas of those candidates that weren't proved, until the target is
    /// proved.
    pub(crate) fn directed<P: Progress>(
        &mut self,
        alloc: Global,
        target: Target<'_>,
        tried: &mut Tried,
        deeper: u32,
        progress: &mut P,
    ) -> Result<bool, OutOfMemory> {
        let candidates = self.proposed(alloc, target)?;
        let mut open = Vec::new(alloc);
        if self.try_proposed(alloc, target, candidates, tried, &mut open, progress)? {
            return Ok(true);
        }
        if deeper == 0 {
            return Ok(false);
        }
        for candidate in open {
            if self.is_over() || tried.tries > TRIES_OF_GOAL {
                break;
            }
            let before = self.library.active.len();
            let below = Target::Candidate(&candidate);
            let found = self.directed(alloc, below, tried, deeper - 1, progress)?;
            if self.library.active.len() == before {
                continue;
            }
            if !found && !self.library.known.is_redundant(alloc, &candidate)? {
                self.lemma(alloc, &candidate, progress)?;
            }
            if self.prove_target(alloc, target, progress)? {
                return Ok(true);
            }
        }
        Ok(false)
    }

    /// The candidates for lemmas of the target, the most promising first.
    fn proposed(&mut self, alloc: Global, target: Target<'_>) -> Result<Vec<Clause>, OutOfMemory> {
        let goal = self.goal_of_target(alloc, target)?;
        let clause = of_goal(alloc, &goal)?;
        let leaves = self.library.stuck(alloc, goal, stuck(size(&clause)))?;
        ranked(alloc, self.spec, &clause, leaves)
    }

    /// Tries the first candidates that are new. Each that is proved may prove the target; the
    /// others are kept as open. Answers whether the target is proved.
    fn try_proposed<P: Progress>(
        &mut self,
        alloc: Global,
        target: Target<'_>,
        candidates: Vec<Clause>,
        tried: &mut Tried,
        open: &mut Vec<Clause>,
        progress: &mut P,
    ) -> Result<bool, OutOfMemory> {
        let mut count: u32 = 0;
        for candidate in candidates {
            if self.is_over()
                || tried.tries > TRIES_OF_GOAL
                || self.library.active.len() >= MOST_LEMMAS
            {
                break;
            }
            if !self.is_promising(alloc, &candidate, tried)? {
                continue;
            }
            if count == TRIES_OF_CLAUSE {
                break;
            }
            count = count.saturating_add(1);
            tried.tries = tried.tries.saturating_add(1);
            if !self.lemma(alloc, &candidate, progress)? {
                open.push(candidate)?;
            } else if self.prove_target(alloc, target, progress)? {
                return Ok(true);
            }
        }
        Ok(false)
    }

    /// Whether the candidate is new, says something new, and no sample makes it false.
    fn is_promising(
        &mut self,
        alloc: Global,
        candidate: &Clause,
        tried: &mut Tried,
    ) -> Result<bool, OutOfMemory> {
        Ok(
            !self.is_own(candidate)
                && tried.is_new(alloc, candidate)?
                && !self.library.known.is_redundant(alloc, candidate)?
                && !self
                    .samples
                    .refutes(alloc, candidate, RANDOM_TESTS, SMALL_TESTS)?,
        )
    }

    /// Tries to prove the target by all that is known.
    fn prove_target<P: Progress>(
        &mut self,
        alloc: Global,
        target: Target<'_>,
        progress: &mut P,
    ) -> Result<bool, OutOfMemory> {
        match target {
            Target::Given(goal) => self.goal_again(alloc, goal),
            Target::Candidate(clause) => self.lemma(alloc, clause, progress),
        }
    }

    /// The goal that says what the target says.
    fn goal_of_target(&self, alloc: Global, target: Target<'_>) -> Result<Goal, OutOfMemory> {
        match target {
            Target::Given(goal) => copy_goal(alloc, goal),
            Target::Candidate(clause) => {
                let name = Name::of(alloc, b"")?;
                goal_of(alloc, &self.spec.sig, name, clause)
            }
        }
    }
}
