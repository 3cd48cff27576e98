//! The numbers by which an exploration is bounded.

use freer_search::FreerBounds;
use proof_ladder::Prover;
use proof_search::Limits;
use std::alloc::Global;
use term_classes::ClassBounds;
use term_core::OutOfMemory;

/// How far lemmas are looked for.
#[derive(Clone, Copy)]
pub struct ExploreBounds {
    /// Units of work for each stage of a goal, and three times as many where the freer search is
    /// asked. A unit is one try of a match; four evaluated calls are one, and a try to prove a
    /// candidate counts [`TRY_WORK`].
    pub work: u64,
    /// The greatest number of symbols of a term that is made from below.
    pub size: u32,
    /// How many samples tell terms apart.
    pub samples: u32,
    /// Whether lemmas are looked for. If not, each goal is tried by the freer search alone.
    pub with_lemmas: bool,
}

/// Which provers are asked.
#[derive(Clone, Copy, PartialEq, Eq)]
pub(crate) enum Strength {
    /// Those of `prove`.
    Routine,
    /// Those of `prove`, and then the freer search.
    Freer,
}

/// Units of work of one try to prove a candidate, and of each lemma that it may use.
const TRY_WORK: u64 = 1000;

const LEMMA_WORK: u64 = 50;

/// Units of work of a node that the freer search may look at.
const NODE_WORK: u64 = 5;

/// How many times as much work a stage may take where the freer search is asked.
const FREER_WORK: u64 = 3;

/// The greatest number of lemmas that are known at once.
pub(crate) const MOST_LEMMAS: usize = 170;

/// How often candidates that weren't proved are tried again while lemmas appear.
pub(crate) const ROUNDS: u32 = 4;

/// The size of terms after which candidates with a premise are made, and their terms' size.
pub(crate) const SIZE_BEFORE_PREMISES: u32 = 5;

pub(crate) const SIZE_WITH_PREMISES: u32 = 4;

/// How many candidates of a stuck clause are tried, and how many for a goal.
pub(crate) const TRIES_OF_CLAUSE: u32 = 12;

pub(crate) const TRIES_OF_GOAL: u32 = 200;

/// How often candidates are looked for below a candidate that wasn't proved.
pub(crate) const DEEPEST: u32 = 3;

/// How many small lemmas of one stage the next one begins with, and how many symbols they have.
pub(crate) const SMALL_LEMMAS: usize = 80;

pub(crate) const SMALL_SIZE: u32 = 14;

/// How far the freer search goes for a candidate.
const FREER_CANDIDATE: FreerBounds = FreerBounds {
    nodes: 400,
    cost: 1,
};

/// The provers of `prove`, within these limits.
pub(crate) fn usual(alloc: Global, limits: Limits) -> Result<Vec<Prover>, OutOfMemory> {
    let mut provers = Vec::new(alloc);
    provers.push(Prover::Plain)?;
    provers.push(Prover::Routine(limits))?;
    Ok(provers)
}

/// The provers for a candidate of this size.
pub(crate) fn provers(
    alloc: Global,
    size: u32,
    strength: Strength,
) -> Result<Vec<Prover>, OutOfMemory> {
    let mut provers = usual(alloc, candidate(size))?;
    if strength == Strength::Freer {
        provers.push(Prover::Freer(FREER_CANDIDATE))?;
    }
    Ok(provers)
}

/// Units of work of one try to prove something by these provers, over this number of lemmas.
pub(crate) fn try_work(provers: &[Prover], lemmas: usize) -> u64 {
    let mut work = TRY_WORK.saturating_add(LEMMA_WORK.saturating_mul(lemmas as u64));
    for prover in provers {
        if let Prover::Freer(bounds) = prover {
            work = work.saturating_add(NODE_WORK.saturating_mul(u64::from(bounds.nodes)));
        }
    }
    work
}

/// A goal that is tried over what was known before.
pub(crate) fn whole_goal() -> Limits {
    Limits {
        nodes: 2000,
        covers: 100,
        size: u32::MAX,
    }
}

/// A goal that is tried again, over further lemmas.
pub(crate) fn goal_again() -> Limits {
    Limits {
        nodes: 400,
        covers: 4,
        size: u32::MAX,
    }
}

/// A candidate with this many symbols.
fn candidate(size: u32) -> Limits {
    Limits {
        nodes: 80,
        covers: 3,
        size: size.saturating_mul(6).saturating_add(60),
    }
}

/// How far a block is made to find where it is stuck, of a clause with this many symbols.
pub(crate) fn stuck(size: u32) -> Limits {
    Limits {
        nodes: 120,
        covers: 2,
        size: size.saturating_mul(6).saturating_add(60),
    }
}

impl ExploreBounds {
    /// Units of work of a stage.
    pub(crate) fn work_of(self, strength: Strength) -> u64 {
        match strength {
            Strength::Routine => self.work,
            Strength::Freer => self.work.saturating_mul(FREER_WORK),
        }
    }

    /// The greatest size of terms that are made from below: the freer search costs more.
    pub(crate) fn size_of(self, strength: Strength) -> u32 {
        match strength {
            Strength::Routine => self.size,
            Strength::Freer => self.size.saturating_sub(1),
        }
    }

    /// How terms are made from below.
    pub(crate) fn classes(self) -> ClassBounds {
        ClassBounds {
            variables: 3,
            samples: self.samples,
            terms: 30_000,
        }
    }
}
