//! The stages of the search for one goal.

use crate::bounds::{DEEPEST, Strength};
use crate::directed::{Target, Tried};
use crate::exploring::Explorer;
use crate::library::Mark;
use crate::progress::{Progress, Way};
use clause_core::of_goal;
use spec_core::Goal;
use std::alloc::Global;
use term_core::OutOfMemory;

/// A stage: where lemmas are looked for, and which provers are asked.
#[derive(Clone, Copy, PartialEq, Eq)]
pub(crate) enum Stage {
    /// Among equations of terms, with the provers of `prove`.
    FromBelow,
    /// Among generalizations of stuck clauses, with the provers of `prove`.
    FromGoal,
    /// Nowhere: the freer search tries the goal itself.
    FreelyAlone,
    /// As the first two, with the freer search.
    FreelyFromBelow,
    FreelyFromGoal,
}

/// The stages, in the order in which they are gone through.
pub(crate) const STAGES: [Stage; 5] = [
    Stage::FromBelow,
    Stage::FromGoal,
    Stage::FreelyAlone,
    Stage::FreelyFromBelow,
    Stage::FreelyFromGoal,
];

impl Stage {
    /// Which provers are asked.
    pub(crate) fn strength(self) -> Strength {
        match self {
            Stage::FromBelow | Stage::FromGoal => Strength::Routine,
            Stage::FreelyAlone | Stage::FreelyFromBelow | Stage::FreelyFromGoal => Strength::Freer,
        }
    }
}

impl<'a> Explorer<'a> {
    /// Goes through the stages until the goal is proved.
    pub(crate) fn by_stages<P: Progress>(
        &mut self,
        alloc: Global,
        goal: &Goal,
        mark: Mark,
        progress: &mut P,
    ) -> Result<bool, OutOfMemory> {
        for stage in STAGES {
            if (self.bounds.with_lemmas || stage == Stage::FreelyAlone)
                && self.by_stage(alloc, goal, mark, stage, progress)?
            {
                return Ok(true);
            }
        }
        Ok(false)
    }

    /// Goes through one stage. What earlier stages found is forgotten, but for small lemmas, with
    /// which the last stage begins.
    fn by_stage<P: Progress>(
        &mut self,
        alloc: Global,
        goal: &Goal,
        mark: Mark,
        stage: Stage,
        progress: &mut P,
    ) -> Result<bool, OutOfMemory> {
        self.strength = stage.strength();
        match stage {
            Stage::FreelyFromGoal => self.library.use_small(alloc, mark)?,
            _ => self.library.reset(alloc, mark),
        }
        match stage {
            Stage::FromBelow | Stage::FreelyFromBelow => self.from_below(alloc, goal, progress),
            Stage::FromGoal | Stage::FreelyFromGoal => self.from_goal(alloc, goal, progress),
            Stage::FreelyAlone => self.alone(alloc, goal, progress),
        }
    }

    /// Tries to prove the goal over what is known.
    fn alone<P: Progress>(
        &mut self,
        alloc: Global,
        goal: &Goal,
        progress: &mut P,
    ) -> Result<bool, OutOfMemory> {
        self.begin(alloc, goal, Way::Alone, progress)?;
        if self.is_over() {
            return Ok(false);
        }
        self.goal_freely(alloc, goal)
    }

    /// Looks for lemmas among equations of terms.
    fn from_below<P: Progress>(
        &mut self,
        alloc: Global,
        goal: &Goal,
        progress: &mut P,
    ) -> Result<bool, OutOfMemory> {
        self.begin(alloc, goal, Way::Terms(0), progress)?;
        let clause = of_goal(alloc, goal)?;
        self.bottom_up(alloc, goal, &clause, progress)
    }

    /// Looks for lemmas among generalizations of stuck clauses.
    fn from_goal<P: Progress>(
        &mut self,
        alloc: Global,
        goal: &Goal,
        progress: &mut P,
    ) -> Result<bool, OutOfMemory> {
        self.begin(alloc, goal, Way::StuckClauses, progress)?;
        let mut tried = Tried {
            seen: Vec::new(alloc),
            tries: 0,
        };
        self.directed(alloc, Target::Given(goal), &mut tried, DEEPEST, progress)
    }
}
