//! Lemmas from below: terms by size, of which two with the same values make a candidate.

use crate::bounds::{SIZE_BEFORE_PREMISES, SIZE_WITH_PREMISES, Strength};
use crate::exploring::Explorer;
use crate::progress::{Progress, Way};
use clause_core::Clause;
use spec_core::Goal;
use std::alloc::Global;
use term_classes::{Candidate, Classes, scope_of};
use term_core::OutOfMemory;

impl<'a> Explorer<'a> {
    /// Looks for lemmas among equations of terms, size by size, until the goal is proved by them.
    pub(crate) fn bottom_up<P: Progress>(
        &mut self,
        alloc: Global,
        goal: &Goal,
        clause: &Clause,
        progress: &mut P,
    ) -> Result<bool, OutOfMemory> {
        let scope = scope_of(alloc, self.spec, clause)?;
        let bounds = self.bounds.classes();
        let mut classes = Classes::new(alloc, self.spec, &mut self.samples, scope, bounds)?;
        let mut waiting = Vec::new(alloc);
        for size in 1..=self.bounds.size_of(self.strength) {
            if self.is_over() || classes.is_full() {
                break;
            }
            self.way = Way::Terms(size);
            let left = self.left();
            let known = &mut self.library.known;
            let fresh = classes.grow(alloc, size, &mut self.samples, known, left)?;
            waiting = self.try_all(alloc, goal, fresh, waiting, progress)?;
            if self.is_proved {
                return Ok(true);
            }
            if size == SIZE_BEFORE_PREMISES {
                let fresh = self.with_premises(alloc, &mut classes)?;
                waiting = self.try_all(alloc, goal, fresh, waiting, progress)?;
                if self.is_proved {
                    return Ok(true);
                }
            }
        }
        Ok(false)
    }

    /// Candidates with a premise, and where the freer search is asked also some with two.
    fn with_premises(
        &self,
        alloc: Global,
        classes: &mut Classes<'_>,
    ) -> Result<Vec<Candidate>, OutOfMemory> {
        let mut found = classes.conditional(alloc, &self.samples, SIZE_WITH_PREMISES)?;
        if self.strength == Strength::Freer {
            for candidate in classes.implications(alloc, &self.samples)? {
                found.push(candidate)?;
            }
        }
        Ok(found)
    }
}
