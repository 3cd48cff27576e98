//! `explore`: the goals of a file in their order, and lemmas for those that stay open.

use crate::bounds::{ExploreBounds, Strength, goal_again, usual, whole_goal};
use crate::goals::{are_same, both_ways};
use crate::library::{Library, copy_numbers};
use crate::places::ReportParts;
use crate::progress::{End, Progress, Way, append_way, begin_line, end_line};
use crate::writing::{Proposal, written};
use accepted_spec::Accepted;
use clause_core::{Claim, Clause, Outcome};
use freer_search::FREER_GOAL;
use goal_lines::{SortNames, goal_line};
use proof_ladder::Prover;
use sample_values::Samples;
use spec_admit::Admitted;
use spec_core::{Goal, Spec};
use spec_grammar::RawSpec;
use spec_order::AnyOrder;
use std::alloc::Global;
use term_core::{Name, OutOfMemory};

/// The sizes of lemmas that are chosen where a goal isn't proved by all of them: too many mislead a
/// prover that takes the first possible step.
const CHOSEN_SIZES: [u32; 3] = [8, 10, 13];

/// What an exploration goes by.
#[derive(Drop)]
pub(crate) struct Explorer<'a> {
    pub(crate) spec: &'a Spec,
    sorts: SortNames,
    pub(crate) library: Library<'a>,
    pub(crate) samples: Samples<'a>,
    pub(crate) bounds: ExploreBounds,
    /// What the goal says for which lemmas are looked for, from either side. A lemma that says the
    /// same would tell a reader nothing.
    own: Vec<Clause>,
    /// The way that is gone now, which provers are asked, and the work before it.
    pub(crate) way: Way,
    pub(crate) strength: Strength,
    /// Whether the goal is proved by candidates from below.
    pub(crate) is_proved: bool,
    work_before: u64,
}

/// The text with further goals, and the report on it: a proposal. `growing` is the specification
/// of `base` again. Lemmas are looked for where `asked` is the goal's name or there is none.
pub fn explore<P: Progress>(
    alloc: Global,
    base: &Accepted,
    growing: Admitted<AnyOrder>,
    sources: Sources<'_>,
    bounds: ExploreBounds,
    progress: &mut P,
) -> Result<Proposal, OutOfMemory> {
    let mut explorer = Explorer::new(alloc, base, growing, bounds)?;
    explorer.proposal(alloc, &base.raw, &sources, progress)
}

/// What an exploration begins with.
#[derive(Drop)]
pub struct Sources<'a> {
    /// The text of a specification.
    pub text: &'a [u8],
    /// The report of `prove` on it.
    pub report: &'a [u8],
    /// What that report claims.
    pub claims: &'a [Claim],
    /// The only goal for which lemmas are looked for.
    pub asked: Option<Name>,
}

/// A goal of the file, with what the report of `prove` claims of it.
#[derive(Clone, Copy)]
struct Told<'a> {
    goal: &'a Goal,
    claim: &'a Claim,
    /// The lines of the claim.
    lines: &'a [u8],
}

impl<'a> Explorer<'a> {
    /// Nothing is looked for yet.
    fn new(
        alloc: Global,
        base: &'a Accepted,
        growing: Admitted<AnyOrder>,
        bounds: ExploreBounds,
    ) -> Result<Explorer<'a>, OutOfMemory> {
        let spec = &base.admitted.spec;
        let library = Library::new(alloc, spec, &base.admitted.order, growing)?;
        let samples = Samples::new(alloc, spec)?;
        Ok(Explorer {
            spec,
            sorts: SortNames::of(alloc, &base.raw)?,
            library,
            samples,
            bounds,
            own: Vec::new(alloc),
            way: Way::Alone,
            strength: Strength::Routine,
            is_proved: false,
            work_before: 0,
        })
    }

    /// The proposal for the text of which this is the raw specification.
    fn proposal<P: Progress>(
        &mut self,
        alloc: Global,
        raw: &RawSpec,
        sources: &Sources<'_>,
        progress: &mut P,
    ) -> Result<Proposal, OutOfMemory> {
        let parts = ReportParts::of(alloc, sources.report)?;
        self.goals(alloc, sources, &parts, progress)?;
        written(alloc, raw, &self.library, sources.text, &parts.header)
    }

    /// Goes along the goals of the file.
    fn goals<P: Progress>(
        &mut self,
        alloc: Global,
        sources: &Sources<'_>,
        parts: &ReportParts,
        progress: &mut P,
    ) -> Result<(), OutOfMemory> {
        let goals = self.spec.goals.as_slice().iter();
        for ((goal, claim), lines) in goals.zip(sources.claims).zip(&parts.claims) {
            let told = Told { goal, claim, lines };
            self.goal(alloc, told, sources.asked.as_ref(), progress)?;
        }
        Ok(())
    }

    /// Units of work so far.
    fn work(&self) -> u64 {
        self.library
            .work()
            .saturating_add(self.samples.evaluated() / 4)
    }

    /// Units of work of the way that is gone now.
    fn spent(&self) -> u64 {
        self.work().saturating_sub(self.work_before)
    }

    /// Whether the clause says what the goal says.
    pub(crate) fn is_own(&self, clause: &Clause) -> bool {
        self.own.iter().any(|other| are_same(other, clause))
    }

    /// How many units of work are left to it.
    pub(crate) fn left(&self) -> u64 {
        self.bounds
            .work_of(self.strength)
            .saturating_sub(self.spent())
    }

    /// Whether no work is left.
    pub(crate) fn is_over(&self) -> bool {
        self.left() == 0
    }

    /// Begins to look for lemmas for the goal in a way.
    pub(crate) fn begin<P: Progress>(
        &mut self,
        alloc: Global,
        goal: &Goal,
        way: Way,
        progress: &mut P,
    ) -> Result<(), OutOfMemory> {
        self.way = way;
        self.work_before = self.work();
        self.is_proved = false;
        self.samples.restart();
        progress.tell(&begin_line(alloc, goal, way, self.strength)?);
        Ok(())
    }

    /// Adds the goal with what is claimed of it. If it is open, it is proved if it can be, with
    /// lemmas if it needs them.
    fn goal<P: Progress>(
        &mut self,
        alloc: Global,
        told: Told<'_>,
        asked: Option<&Name>,
        progress: &mut P,
    ) -> Result<(), OutOfMemory> {
        let Told { goal, claim, lines } = told;
        match &claim.outcome {
            Outcome::Proved(block) => self.library.keep(alloc, goal, block, lines),
            Outcome::Refuted { .. } => {
                progress.tell(&end_line(alloc, goal, End::Refuted)?);
                self.library.leave(alloc, goal, lines)
            }
            Outcome::Open(_) => {
                let found = self.by_lemmas(alloc, goal)?
                    || (asked.is_none_or(|name| goal.has_name(name))
                        && self.explored(alloc, goal, progress)?);
                if found {
                    Ok(())
                } else {
                    self.library.leave(alloc, goal, lines)
                }
            }
        }
    }

    /// Tries to prove the goal by the lemmas that were found for others.
    fn by_lemmas(&mut self, alloc: Global, goal: &Goal) -> Result<bool, OutOfMemory> {
        if !self.library.has_lemmas() {
            return Ok(false);
        }
        let lemmas = copy_numbers(alloc, &self.library.active)?;
        let provers = usual(alloc, whole_goal())?;
        self.library.prove_given(alloc, goal, &lemmas, &provers)
    }

    /// Looks for a proof of the goal, with lemmas for it. Those that it needs are kept.
    fn explored<P: Progress>(
        &mut self,
        alloc: Global,
        goal: &Goal,
        progress: &mut P,
    ) -> Result<bool, OutOfMemory> {
        let mark = self.library.mark();
        self.own = both_ways(alloc, goal)?;
        let found = self.by_stages(alloc, goal, mark, progress)?;
        let end = if found { End::Proved } else { End::Open };
        progress.tell(&end_line(alloc, goal, end)?);
        if found {
            return self.library.keep_needed(alloc, mark);
        }
        self.library.reset(alloc, mark);
        Ok(false)
    }

    /// Tries a goal of the file again: by all that is known, and by those that are small.
    pub(crate) fn goal_again(&mut self, alloc: Global, goal: &Goal) -> Result<bool, OutOfMemory> {
        let provers = usual(alloc, goal_again())?;
        let all = copy_numbers(alloc, &self.library.active)?;
        if self.library.prove_given(alloc, goal, &all, &provers)? {
            return Ok(true);
        }
        for size in CHOSEN_SIZES {
            let chosen = self.library.small(alloc, size)?;
            if chosen.len() == all.len() {
                break;
            }
            if self.library.prove_given(alloc, goal, &chosen, &provers)? {
                return Ok(true);
            }
        }
        match self.strength {
            Strength::Routine => Ok(false),
            Strength::Freer => self.goal_freely(alloc, goal),
        }
    }

    /// Tries a goal of the file by the freer search, with all that is known.
    pub(crate) fn goal_freely(&mut self, alloc: Global, goal: &Goal) -> Result<bool, OutOfMemory> {
        let all = copy_numbers(alloc, &self.library.active)?;
        let freer = [Prover::Freer(FREER_GOAL)];
        self.library.prove_given(alloc, goal, &all, &freer)
    }

    /// Tries to prove the clause as a lemma, and tells of it.
    pub(crate) fn lemma<P: Progress>(
        &mut self,
        alloc: Global,
        clause: &Clause,
        progress: &mut P,
    ) -> Result<bool, OutOfMemory> {
        let strength = self.strength;
        let proved = self.library.prove_lemma(alloc, clause, strength)?;
        if proved && let Some(goal) = self.library.admitted.spec.goals.as_slice().last() {
            let mut line = goal_line(alloc, &self.sorts, &self.spec.sig, goal)?;
            append_way(self.way, self.spent(), &mut line)?;
            progress.tell(&line);
        }
        Ok(proved)
    }
}
