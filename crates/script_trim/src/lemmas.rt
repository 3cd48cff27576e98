//! The clauses of goals, with their keys, and which goals are proved.

ghost use Rattle.std.specs.Prelude.{◌≡◌, ◌++◌, [], ◌∷◌, IfOk, OnOk};
ghost use Rattle.script_trim.specs.Trying.{AreLemmas};

use crate::keys::key;
use clause_core::{Clause, of_goal};
use spec_core::Spec;
use std::alloc::Global;
use term_core::OutOfMemory;

/// The clause of a goal, with its key.
#[derive(Drop)]
pub(crate) struct LemmaClause {
    pub clause: Clause,
    pub key: Option<u32>,
}

/// The goals that may be used as lemmas. No goal is tidied more than once.
#[derive(Drop)]
pub(crate) struct Lemmas {
    /// The goals that are proved so far, by their numbers.
    pub numbers: Vec<u32>,
    /// For each goal of the specification its clause.
    pub clauses: Vec<LemmaClause>,
}

impl Lemmas {
    /// No goal is proved so far.
    pub fn new(alloc: Global, spec: &Spec) -> Result<Lemmas, OutOfMemory>
        ensures numbers { IfOk result (λ lemmas. lemmas.numbers.items ≡ []) }
        ensures clauses { IfOk result (AreLemmas spec.now) }
    {
        let mut clauses = Vec::with_capacity(alloc, spec.goals.len())?;
        for goal in spec.goals.as_slice() {
            let clause = of_goal(alloc, goal)?;
            let key = key(&clause);
            clauses.push(LemmaClause { clause, key })?;
        }
        Ok(Lemmas {
            numbers: Vec::new(alloc),
            clauses,
        })
    }

    /// The goal with this number is proved too.
    pub fn add(&mut self, number: u32) -> Result<(), OutOfMemory>
        ensures numbers { OnOk result
            (self.new.numbers.items ≡ self.old.numbers.items ++ number ∷ []) }
        ensures clauses { self.new.clauses ≡ self.old.clauses }
    {
        self.numbers.push(number)?;
        Ok(())
    }
}
