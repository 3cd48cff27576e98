//! `Classes::implications`: candidates that two tests imply a third one.

use crate::candidates::{Candidate, equation};
use crate::class_table::{ClassId, Representative};
use crate::classes::Classes;
use crate::sampled::Sampled;
use sample_values::Samples;
use spec_core::{Equation, boolean};
use std::alloc::Global;
use term_core::{OutOfMemory, Seq, SortId, TermNode, VarId};

/// The sort of truth values.
const BOOL: SortId = SortId(0);

/// The most symbols of a test.
const MOST_SYMBOLS: u32 = 3;

/// The most literals that are put together.
const MOST_LITERALS: usize = 80;

/// At fewer samples too many literals hold by chance.
const FEWEST_SAMPLES: usize = 5;

/// The most candidates of one call.
const MOST_CANDIDATES: usize = 400;

/// That a test is true, or that it is false.
#[derive(Drop)]
struct Literal {
    class: ClassId,
    equation: Equation,
    size: u32,
    vars: Seq<VarId>,
    /// For each sample whether it holds there.
    holds: Vec<bool>,
}

impl Classes<'_> {
    /// Candidates with two premises: where two literals hold, a third one does. Each is a Boolean
    /// function of variables that is true, or false. The premises share a variable, and have each
    /// one of the conclusion. They hold together at five samples at least, and neither is enough.
    pub fn implications(
        &mut self,
        alloc: Global,
        samples: &Samples<'_>,
    ) -> Result<Vec<Candidate>, OutOfMemory> {
        self.found.clear();
        let literals = self.literals(alloc, samples)?;
        for (number, first) in literals.iter().enumerate() {
            if let Some(others) = literals.get(number.saturating_add(1)..) {
                self.add_from(alloc, first, others, &literals)?;
            }
        }
        Ok(self.taken(alloc))
    }

    /// The literals: each test, true and then false.
    fn literals(&self, alloc: Global, samples: &Samples<'_>) -> Result<Vec<Literal>, OutOfMemory> {
        let mut made = Vec::new(alloc);
        for number in 0..self.table.len() {
            let class = ClassId(number);
            if let Some(own) = self.table.representative(class)
                && made.len() < MOST_LITERALS
                && self.is_flat_test(own)
            {
                made.push(self.literal(alloc, class, own, true, samples)?)?;
                made.push(self.literal(alloc, class, own, false, samples)?)?;
            }
        }
        Ok(made)
    }

    /// Whether the representative is a small Boolean function of variables.
    fn is_flat_test(&self, own: &Representative) -> bool {
        match &own.term.node {
            TermNode::App(sym, args) => {
                own.sort == BOOL
                    && own.size <= MOST_SYMBOLS
                    && sym.0 >= self.spec.sig.constructors()
                    && !args.is_empty()
                    && args.iter().all(|arg| matches!(arg.node, TermNode::Var(_)))
            }
            TermNode::Var(_) => false,
        }
    }

    /// That the representative has this truth value.
    fn literal(
        &self,
        alloc: Global,
        class: ClassId,
        own: &Representative,
        wanted: bool,
        samples: &Samples<'_>,
    ) -> Result<Literal, OutOfMemory> {
        let value = Sampled::Known(samples.boolean(wanted));
        let mut holds = Vec::new(alloc);
        for sampled in self.table.values(class) {
            holds.push(*sampled == value)?;
        }
        Ok(Literal {
            class,
            equation: equation(alloc, &own.term, &boolean(alloc, wanted))?,
            size: own.size,
            vars: own.term.vars(alloc)?,
            holds,
        })
    }

    /// Adds the candidates whose premises are the first literal and one of the others.
    fn add_from(
        &mut self,
        alloc: Global,
        first: &Literal,
        others: &[Literal],
        all: &[Literal],
    ) -> Result<(), OutOfMemory> {
        for second in others {
            if second.class != first.class && shares(&first.vars, &second.vars) {
                let both = both_hold(alloc, first, second)?;
                if both.iter().filter(|held| **held).count() >= FEWEST_SAMPLES {
                    self.add_implied(alloc, first, second, &both, all)?;
                }
            }
        }
        Ok(())
    }

    /// Adds the candidates with these premises, which hold together at these samples.
    fn add_implied(
        &mut self,
        alloc: Global,
        first: &Literal,
        second: &Literal,
        both: &[bool],
        all: &[Literal],
    ) -> Result<(), OutOfMemory> {
        for third in all {
            if self.found.len() < MOST_CANDIDATES
                && speaks_of(third, first, second)
                && !fails_somewhere(both, third)
                && fails_somewhere(&first.holds, third)
                && fails_somewhere(&second.holds, third)
            {
                self.add_implication(alloc, first, second, third)?;
            }
        }
        Ok(())
    }

    /// Adds the candidate, if it didn't come up with its premises in either order.
    fn add_implication(
        &mut self,
        alloc: Global,
        first: &Literal,
        second: &Literal,
        third: &Literal,
    ) -> Result<(), OutOfMemory> {
        let candidate = self.implication(alloc, first, second, third)?;
        let exchanged = self.implication(alloc, second, first, third)?;
        if self.seen.add(alloc, &candidate.clause)? {
            let _is_new = self.seen.add(alloc, &exchanged.clause)?;
            self.keep(candidate)?;
        }
        Ok(())
    }

    /// The candidate that the first two literals imply the third one.
    fn implication(
        &self,
        alloc: Global,
        first: &Literal,
        second: &Literal,
        third: &Literal,
    ) -> Result<Candidate, OutOfMemory> {
        let mut premises = Vec::with_capacity(alloc, 2)?;
        premises.push(copied(alloc, &first.equation)?)?;
        premises.push(copied(alloc, &second.equation)?)?;
        let conclusion = copied(alloc, &third.equation)?;
        let tests = first
            .size
            .saturating_add(second.size)
            .saturating_add(third.size);
        Candidate::new(
            alloc,
            &self.sorts,
            premises,
            conclusion,
            tests.saturating_add(3),
        )
    }
}

fn copied(alloc: Global, own: &Equation) -> Result<Equation, OutOfMemory> {
    equation(alloc, &own.left, &own.right)
}

/// Whether the lists have a variable in common.
fn shares(vars: &Seq<VarId>, others: &Seq<VarId>) -> bool {
    vars.iter().any(|var| others.as_slice().contains(var))
}

/// For each sample whether both literals hold there.
fn both_hold(alloc: Global, first: &Literal, second: &Literal) -> Result<Vec<bool>, OutOfMemory> {
    let mut both = Vec::new(alloc);
    for (one, other) in first.holds.iter().zip(&second.holds) {
        both.push(*one && *other)?;
    }
    Ok(both)
}

/// Whether the literal has another test than these two, and only variables of theirs.
fn speaks_of(own: &Literal, first: &Literal, second: &Literal) -> bool {
    own.class != first.class
        && own.class != second.class
        && own.vars.iter().all(|var| {
            first.vars.as_slice().contains(var) || second.vars.as_slice().contains(var)
        })
}

/// Whether the literal fails at one of these samples.
fn fails_somewhere(samples: &[bool], own: &Literal) -> bool {
    samples
        .iter()
        .zip(&own.holds)
        .any(|(chosen, held)| *chosen && !*held)
}
