//! `Classes::conditional`: candidates that hold where a premise does.

use crate::candidates::{Candidate, equation};
use crate::class_table::ClassId;
use crate::classes::Classes;
use crate::premises::Premise;
use crate::regrouping::Regrouping;
use sample_values::Samples;
use spec_core::{Equation, boolean};
use std::alloc::Global;
use term_core::{OutOfMemory, Seq, Term, VarId};

/// The most candidates of one call.
const MOST_CANDIDATES: usize = 3_000;

/// The most variables of a conclusion.
const MOST_VARIABLES: usize = 4;

/// By how many symbols a clause counts as larger if its conclusion lacks a variable of its premise.
const LACKING: u32 = 3;

impl Classes<'_> {
    /// Candidates with one premise: that a Boolean representative of two to four symbols is true,
    /// or false. Under it a representative of at most this size equals another one if they have
    /// the same values where the premise holds. Premises that hold at fewer than eight samples say
    /// too little, and those that hold at all samples too much.
    pub fn conditional(
        &mut self,
        alloc: Global,
        samples: &Samples<'_>,
        size: u32,
    ) -> Result<Vec<Candidate>, OutOfMemory> {
        self.found.clear();
        let premises = self.premises(alloc, samples)?;
        for premise in &premises {
            self.add_under(alloc, premise, size)?;
        }
        Ok(self.taken(alloc))
    }

    /// Adds the candidates under the premise.
    fn add_under(
        &mut self,
        alloc: Global,
        premise: &Premise,
        size: u32,
    ) -> Result<(), OutOfMemory> {
        let mut groups = Regrouping::new(alloc, &premise.samples)?;
        for number in 0..self.table.len() {
            let class = ClassId(number);
            if self.found.len() >= MOST_CANDIDATES || !self.is_within(class, size) {
                break;
            }
            if let Some(other) = groups.add(alloc, &self.table, class)? {
                self.add_conditional(alloc, premise, class, other)?;
            }
        }
        Ok(())
    }

    /// Whether the representative has at most this size.
    fn is_within(&self, class: ClassId, size: u32) -> bool {
        match self.table.representative(class) {
            Some(own) => own.size <= size,
            None => false,
        }
    }

    /// Adds the candidate that under the premise one representative equals the other one, if it
    /// didn't come up.
    fn add_conditional(
        &mut self,
        alloc: Global,
        premise: &Premise,
        class: ClassId,
        other: ClassId,
    ) -> Result<(), OutOfMemory> {
        if class == premise.class {
            return Ok(());
        }
        let Some(candidate) = self.under(alloc, premise, class, other)? else {
            return Ok(());
        };
        if self.seen.add(alloc, &candidate.clause)? {
            self.keep(candidate)?;
        }
        Ok(())
    }

    /// The candidate that under the premise one representative equals the other one. None if they
    /// have no variable of the premise, or too many of their own.
    fn under(
        &self,
        alloc: Global,
        premise: &Premise,
        class: ClassId,
        other: ClassId,
    ) -> Result<Option<Candidate>, OutOfMemory> {
        let Some(test) = self.table.representative(premise.class) else {
            return Ok(None);
        };
        let Some(left) = self.table.representative(class) else {
            return Ok(None);
        };
        let Some(right) = self.table.representative(other) else {
            return Ok(None);
        };
        let conclusion = equation(alloc, &left.term, &right.term)?;
        let Some(lacking) = lacking(alloc, &test.term, &conclusion)? else {
            return Ok(None);
        };
        let sides = left.size.saturating_add(right.size);
        let size = test.size.saturating_add(sides).saturating_add(lacking);
        let premises = literal(alloc, &test.term, premise.wanted)?;
        let candidate = Candidate::new(alloc, &self.sorts, premises, conclusion, size)?;
        Ok(Some(candidate))
    }
}

/// The equation of the test with the truth value, alone.
fn literal(alloc: Global, test: &Term, wanted: bool) -> Result<Vec<Equation>, OutOfMemory> {
    let mut made = Vec::with_capacity(alloc, 1)?;
    made.push(Equation {
        left: test.copy(alloc)?,
        right: boolean(alloc, wanted),
    })?;
    Ok(made)
}

/// By how many symbols a clause counts as larger under the test. None if its conclusion has no
/// variable of the test, or too many of its own.
fn lacking(alloc: Global, test: &Term, conclusion: &Equation) -> Result<Option<u32>, OutOfMemory> {
    let own = variables_of(alloc, conclusion)?;
    let asked = test.vars(alloc)?;
    let shared = count_among(asked.as_slice(), own.as_slice());
    if shared == 0 || own.len() > MOST_VARIABLES {
        return Ok(None);
    }
    Ok(Some(if shared < asked.len() { LACKING } else { 0 }))
}

/// The variables of both sides, each once.
fn variables_of(alloc: Global, equation: &Equation) -> Result<Seq<VarId>, OutOfMemory> {
    let mut vars = equation.left.vars(alloc)?;
    let others = equation.right.vars(alloc)?;
    for var in &others {
        if !vars.as_slice().contains(var) {
            vars.push(*var)?;
        }
    }
    Ok(vars)
}

/// How many of the variables are among the others.
fn count_among(vars: &[VarId], others: &[VarId]) -> usize {
    let mut count: usize = 0;
    for var in vars {
        if others.contains(var) {
            count = count.saturating_add(1);
        }
    }
    count
}
