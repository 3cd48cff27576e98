//! Candidates that are tried until no more of them are proved.

use crate::bounds::{MOST_LEMMAS, ROUNDS};
use crate::exploring::Explorer;
use crate::progress::Progress;
use spec_core::Goal;
use std::alloc::Global;
use term_classes::Candidate;
use term_core::OutOfMemory;

/// How many random lists of values a candidate is tested with, and how many small ones.
const RANDOM_TESTS: u32 = 80;

const SMALL_TESTS: u32 = 300;

/// A candidate that wasn't proved, with how many lemmas were known then.
#[derive(Drop)]
pub(crate) struct Waiting {
    candidate: Candidate,
    known: usize,
}

impl<'a> Explorer<'a> {
    /// Tries the candidates, then those that wait as long as lemmas appear, and then the goal.
    /// Answers what waits now.
    pub(crate) fn try_all<P: Progress>(
        &mut self,
        alloc: Global,
        goal: &Goal,
        fresh: Vec<Candidate>,
        waiting: Vec<Waiting>,
        progress: &mut P,
    ) -> Result<Vec<Waiting>, OutOfMemory> {
        let before = self.library.active.len();
        let mut fresh = fresh;
        fresh.sort_by_key(|candidate| rank(candidate))?;
        let mut waiting = self.try_fresh(alloc, goal, fresh, waiting, progress)?;
        for _round in 0..ROUNDS {
            if self.is_proved {
                break;
            }
            let known = self.library.active.len();
            waiting = self.try_waiting(alloc, waiting, progress)?;
            if self.library.active.len() == known {
                break;
            }
        }
        if !self.is_proved && self.library.active.len() > before {
            self.is_proved = self.goal_again(alloc, goal)?;
        }
        Ok(waiting)
    }

    /// Tries new candidates. Those that aren't proved wait. Where one is the goal, this is tried at
    /// once with the lemmas that are new.
    fn try_fresh<P: Progress>(
        &mut self,
        alloc: Global,
        goal: &Goal,
        fresh: Vec<Candidate>,
        waiting: Vec<Waiting>,
        progress: &mut P,
    ) -> Result<Vec<Waiting>, OutOfMemory> {
        let mut waiting = waiting;
        let before = self.library.active.len();
        for candidate in fresh {
            if self.is_proved || self.is_over() || self.library.active.len() >= MOST_LEMMAS {
                break;
            }
            if self.is_own(&candidate.clause) {
                self.is_proved = self.library.active.len() > before
                    && self.goal_again(alloc, goal)?;
                continue;
            }
            if self.library.known.is_redundant(alloc, &candidate.clause)?
                || self
                    .samples
                    .refutes(alloc, &candidate.clause, RANDOM_TESTS, SMALL_TESTS)?
            {
                continue;
            }
            let known = self.library.active.len();
            if !self.lemma(alloc, &candidate.clause, progress)? {
                waiting.push(Waiting { candidate, known })?;
            }
        }
        Ok(waiting)
    }

    /// Tries the candidates that wait, where more is known now.
    fn try_waiting<P: Progress>(
        &mut self,
        alloc: Global,
        waiting: Vec<Waiting>,
        progress: &mut P,
    ) -> Result<Vec<Waiting>, OutOfMemory> {
        let mut still = Vec::new(alloc);
        for Waiting { candidate, known } in waiting {
            let now = self.library.active.len();
            if self.is_over() || now >= MOST_LEMMAS || now == known {
                still.push(Waiting { candidate, known })?;
            } else if !self.library.known.is_redundant(alloc, &candidate.clause)?
                && !self.lemma(alloc, &candidate.clause, progress)?
            {
                still.push(Waiting {
                    candidate,
                    known: now,
                })?;
            }
        }
        Ok(still)
    }
}

/// Small candidates come first, of one size those with more variables, and else those made first.
fn rank(candidate: &Candidate) -> (u32, u32, u32) {
    let fewer = u32::MAX - candidate.variables;
    (candidate.size, fewer, candidate.made)
}
