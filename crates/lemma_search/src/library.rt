//! What is known: goals and lemmas in their order, each with its claim.

use crate::bounds::{SMALL_LEMMAS, SMALL_SIZE, Strength, provers, try_work};
use crate::entries::{Entry, Origin, uses_of};
use crate::goals::{fits_in_text, goal_of, size};
use crate::proving::proof_of_last;
use crate::renaming::{Renamed, with_new_names};
use clause_core::{Block, Clause, of_goal};
use goal_lines::lemma_name;
use growing_specs::{add_goal, copy_goal, keep_first};
use known_equations::Known;
use proof_ladder::Prover;
use proof_search::{Limits, stuck_clauses};
use spec_admit::Admitted;
use spec_core::{Goal, Spec};
use spec_grammar::MAX_GOALS;
use spec_order::AnyOrder;
use std::alloc::Global;
use std::mem;
use term_core::OutOfMemory;

/// How much is known at some time.
#[derive(Clone, Copy)]
pub(crate) struct Mark {
    entries: usize,
    active: usize,
    next_lemma: usize,
}

/// The goals and lemmas so far.
#[derive(Drop)]
pub(crate) struct Library<'a> {
    /// The specification, whose goals are the entries.
    pub(crate) admitted: Admitted<AnyOrder>,
    pub(crate) entries: Vec<Entry>,
    /// The numbers of the entries that are proved, and may be used.
    pub(crate) active: Vec<u32>,
    /// The same as equations.
    pub(crate) known: Known<'a, AnyOrder>,
    /// The goals of the file, whose names lemmas don't take.
    given: &'a [Goal],
    /// The number of the next lemma.
    next_lemma: usize,
    /// Units of work of all tries to prove something.
    tries: u64,
}

impl<'a> Library<'a> {
    /// Nothing is known yet of this specification, which is the one of `admitted` too.
    pub(crate) fn new(
        alloc: Global,
        spec: &'a Spec,
        order: &'a AnyOrder,
        admitted: Admitted<AnyOrder>,
    ) -> Result<Library<'a>, OutOfMemory> {
        let mut admitted = admitted;
        keep_first(alloc, &mut admitted, 0);
        Ok(Library {
            admitted,
            entries: Vec::new(alloc),
            active: Vec::new(alloc),
            known: Known::new(alloc, spec, order)?,
            given: spec.goals.as_slice(),
            next_lemma: 1,
            tries: 0,
        })
    }

    /// Units of work so far.
    pub(crate) fn work(&self) -> u64 {
        self.tries.saturating_add(self.known.work())
    }

    /// Whether a lemma is known.
    pub(crate) fn has_lemmas(&self) -> bool {
        self.entries
            .iter()
            .any(|entry| entry.origin == Origin::Found)
    }

    /// Tries to prove a goal of the file by these entries. If it is proved, it is the last entry.
    pub(crate) fn prove_given(
        &mut self,
        alloc: Global,
        goal: &Goal,
        lemmas: &[u32],
        provers: &[Prover],
    ) -> Result<bool, OutOfMemory> {
        let goal = copy_goal(alloc, goal)?;
        self.prove(alloc, goal, Origin::File, lemmas, provers)
    }

    /// Tries to prove the clause as a lemma, by all that is known. If it is proved, it is the last
    /// entry.
    pub(crate) fn prove_lemma(
        &mut self,
        alloc: Global,
        clause: &Clause,
        strength: Strength,
    ) -> Result<bool, OutOfMemory> {
        if !fits_in_text(clause) {
            return Ok(false);
        }
        let spec = &self.admitted.spec;
        let (name, number) = lemma_name(alloc, spec, self.given, self.next_lemma)?;
        let goal = goal_of(alloc, &spec.sig, name, clause)?;
        let lemmas = copy_numbers(alloc, &self.active)?;
        let provers = provers(alloc, size(clause), strength)?;
        let proved = self.prove(alloc, goal, Origin::Found, &lemmas, &provers)?;
        if proved {
            self.next_lemma = number.saturating_add(1);
        }
        Ok(proved)
    }

    fn prove(
        &mut self,
        alloc: Global,
        goal: Goal,
        origin: Origin,
        lemmas: &[u32],
        provers: &[Prover],
    ) -> Result<bool, OutOfMemory> {
        let clause = of_goal(alloc, &goal)?;
        let count = self.entries.len();
        if !add_goal(alloc, &mut self.admitted, goal)? {
            return Ok(false);
        }
        let work = try_work(provers, lemmas.len());
        self.tries = self.tries.saturating_add(work);
        let Some(proved) = proof_of_last(alloc, &self.admitted, lemmas, provers)? else {
            keep_first(alloc, &mut self.admitted, count);
            return Ok(false);
        };
        self.push_known(
            alloc,
            Entry {
                origin,
                clause,
                claim: proved.claim,
                uses: proved.uses,
            },
        )?;
        Ok(true)
    }

    /// Adds an entry that is proved, whose goal is the last one.
    fn push_known(&mut self, alloc: Global, entry: Entry) -> Result<(), OutOfMemory> {
        let Ok(number) = u32::try_from(self.entries.len()) else {
            return Err(OutOfMemory);
        };
        self.known.add(alloc, &entry.clause)?;
        self.active.push(number)?;
        Ok(self.entries.push(entry)?)
    }

    /// Adds a goal of the file that is proved already by this block, with the lines of its claim.
    pub(crate) fn keep(
        &mut self,
        alloc: Global,
        goal: &Goal,
        block: &Block,
        claim: &[u8],
    ) -> Result<(), OutOfMemory> {
        let entry = Entry {
            origin: Origin::File,
            clause: of_goal(alloc, goal)?,
            claim: Vec::from_slice(alloc, claim)?,
            uses: uses_of(alloc, &self.admitted.spec, block)?,
        };
        if add_goal(alloc, &mut self.admitted, copy_goal(alloc, goal)?)? {
            self.push_known(alloc, entry)?;
        }
        Ok(())
    }

    /// Adds a goal of the file that isn't proved, with the lines of its claim.
    pub(crate) fn leave(
        &mut self,
        alloc: Global,
        goal: &Goal,
        claim: &[u8],
    ) -> Result<(), OutOfMemory> {
        let entry = Entry {
            origin: Origin::File,
            clause: of_goal(alloc, goal)?,
            claim: Vec::from_slice(alloc, claim)?,
            uses: Vec::new(alloc),
        };
        if add_goal(alloc, &mut self.admitted, copy_goal(alloc, goal)?)? {
            self.entries.push(entry)?;
        }
        Ok(())
    }

    /// The clauses at which the goal's blocks over all that is known are stuck.
    pub(crate) fn stuck(
        &mut self,
        alloc: Global,
        goal: Goal,
        limits: Limits,
    ) -> Result<Vec<Clause>, OutOfMemory> {
        let count = self.entries.len();
        if !add_goal(alloc, &mut self.admitted, goal)? {
            return Ok(Vec::new(alloc));
        }
        let last = self.admitted.spec.goals.len().saturating_sub(1);
        let stuck = match u32::try_from(last) {
            Ok(number) => stuck_clauses(alloc, &self.admitted, number, &self.active, limits)?,
            Err(_) => Vec::new(alloc),
        };
        keep_first(alloc, &mut self.admitted, count);
        Ok(stuck)
    }

    /// The known entries that are goals of the file or have at most this size.
    pub(crate) fn small(&self, alloc: Global, most: u32) -> Result<Vec<u32>, OutOfMemory> {
        let mut found = Vec::new(alloc);
        for number in &self.active {
            if let Some(entry) = self.entries.get(*number as usize)
                && (entry.origin == Origin::File || size(&entry.clause) <= most)
            {
                found.push(*number)?;
            }
        }
        Ok(found)
    }

    pub(crate) fn mark(&self) -> Mark {
        Mark {
            entries: self.entries.len(),
            active: self.active.len(),
            next_lemma: self.next_lemma,
        }
    }

    /// Forgets all that was found since then.
    pub(crate) fn reset(&mut self, alloc: Global, mark: Mark) {
        keep_first(alloc, &mut self.admitted, mark.entries);
        self.entries.truncate(mark.entries);
        self.active.truncate(mark.active);
        self.known.truncate(mark.active);
        self.next_lemma = mark.next_lemma;
    }

    /// Of what was found since then only the first small entries may be used from now on.
    pub(crate) fn use_small(&mut self, alloc: Global, mark: Mark) -> Result<(), OutOfMemory> {
        let later = match self.active.get(mark.active..) {
            Some(later) => copy_numbers(alloc, later)?,
            None => Vec::new(alloc),
        };
        let most = mark.active.saturating_add(SMALL_LEMMAS);
        self.active.truncate(mark.active);
        self.known.truncate(mark.active);
        for number in &later {
            if self.active.len() >= most {
                break;
            }
            if let Some(entry) = self.entries.get(*number as usize)
                && size(&entry.clause) <= SMALL_SIZE
            {
                self.known.add(alloc, &entry.clause)?;
                self.active.push(*number)?;
            }
        }
        Ok(())
    }

    /// Keeps of what was found since then the last entry, which is a goal of the file, and the
    /// lemmas that it needs. If a text has no room for them beside the goals of the file that are
    /// still to come, nothing is kept, and the answer is false.
    pub(crate) fn keep_needed(&mut self, alloc: Global, mark: Mark) -> Result<bool, OutOfMemory> {
        let first = mark.entries.min(self.entries.len());
        let needed = needed_entries(alloc, &self.entries, first)?;
        let goals = self.needed_goals(alloc, &needed, first)?;
        let later = self.entries.split_off(first)?;
        self.reset(alloc, mark);
        if goals.len() > self.room() {
            return Ok(false);
        }
        self.add_needed(alloc, goals, later, &needed, first)?;
        Ok(true)
    }

    /// Copies of the goals of the entries that are needed, from the first one on.
    fn needed_goals(
        &self,
        alloc: Global,
        needed: &[bool],
        first: usize,
    ) -> Result<Vec<Goal>, OutOfMemory> {
        let mut goals = Vec::new(alloc);
        for (number, goal) in self.admitted.spec.goals.as_slice().iter().enumerate() {
            if number >= first && needed.get(number) == Some(&true) {
                goals.push(copy_goal(alloc, goal)?)?;
            }
        }
        Ok(goals)
    }

    /// How many entries there may be more, the next goal of the file among them.
    fn room(&self) -> usize {
        let given = self
            .entries
            .iter()
            .filter(|entry| entry.origin == Origin::File)
            .count();
        let later = self.given.len().saturating_sub(given).saturating_sub(1);
        MAX_GOALS
            .saturating_sub(self.entries.len())
            .saturating_sub(later)
    }

    /// Adds those of the later entries that are needed, with their goals. Their numbers begin with
    /// `first`. The lemmas get the next names, without gaps.
    fn add_needed(
        &mut self,
        alloc: Global,
        goals: Vec<Goal>,
        later: Vec<Entry>,
        needed: &[bool],
        first: usize,
    ) -> Result<(), OutOfMemory> {
        let mut goals = goals.into_iter();
        let mut names = Vec::new(alloc);
        for (number, entry) in later.into_iter().enumerate() {
            if needed.get(number.saturating_add(first)) == Some(&true)
                && let Some(goal) = goals.next()
            {
                self.add_renamed(alloc, goal, entry, &mut names)?;
            }
        }
        Ok(())
    }

    /// Adds the entry, with its goal. A lemma gets the next name, which its claim has, and all
    /// later ones.
    fn add_renamed(
        &mut self,
        alloc: Global,
        goal: Goal,
        entry: Entry,
        names: &mut Vec<Renamed>,
    ) -> Result<(), OutOfMemory> {
        let mut goal = goal;
        let mut entry = entry;
        if entry.origin == Origin::Found {
            let spec = &self.admitted.spec;
            let (new, number) = lemma_name(alloc, spec, self.given, self.next_lemma)?;
            self.next_lemma = number.saturating_add(1);
            let old = mem::replace(&mut goal.name, new.copy(alloc)?);
            names.push(Renamed { old, new })?;
        }
        entry.claim = with_new_names(alloc, &entry.claim, names.as_slice())?;
        if add_goal(alloc, &mut self.admitted, goal)? {
            self.push_known(alloc, entry)?;
        }
        Ok(())
    }
}

/// Of each entry, whether it is the last one, or one that needs it is needed. Those before the
/// first one aren't asked what they need.
fn needed_entries(
    alloc: Global,
    entries: &[Entry],
    first: usize,
) -> Result<Vec<bool>, OutOfMemory> {
    let mut needed = Vec::new(alloc);
    for _entry in entries {
        needed.push(false)?;
    }
    if let Some(last) = needed.last_mut() {
        *last = true;
    }
    for (number, entry) in entries.iter().enumerate().rev() {
        if number >= first && needed.get(number) == Some(&true) {
            mark_all(&mut needed, &entry.uses);
        }
    }
    Ok(needed)
}

/// Marks these numbers.
fn mark_all(flags: &mut [bool], numbers: &[u32]) {
    for number in numbers {
        if let Some(flag) = flags.get_mut(*number as usize) {
            *flag = true;
        }
    }
}

pub(crate) fn copy_numbers(alloc: Global, numbers: &[u32]) -> Result<Vec<u32>, OutOfMemory> {
    Ok(Vec::from_slice(alloc, numbers)?)
}
