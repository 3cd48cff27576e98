//! `Finder`: what a case is about, with classes that grow.

ghost use Rattle.spec_core.specs.WellSorted.{IsWellSorted};

use crate::printing::{clause_text, symbol_text, term_text};
use anyhow::{Result, bail};
use clause_core::{Clause, of_goal};
use known_equations::Known;
use path_order::Lpo;
use sample_values::Samples;
use spec_core::{Goal, Spec};
use std::alloc::Global;
use term_classes::{Candidate, ClassBounds, Classes, scope_of};

/// As many variables and samples as a finder of lemmas takes, and fewer terms.
const BOUNDS: ClassBounds = ClassBounds {
    variables: 3,
    samples: 30,
    terms: 5_000,
};

/// More work than any case takes.
const MOST_WORK: u64 = 1_000_000;

/// A goal's clause, and the classes of the terms over its scope.
#[derive(Drop)]
pub struct Finder<'a> {
    spec: &'a Spec,
    clause: Clause,
    samples: Samples<'a>,
    known: Known<'a, Lpo>,
    classes: Classes<'a>,
}

impl<'a> Finder<'a> {
    /// No classes yet. No equation is known.
    pub fn new(alloc: Global, spec: &'a Spec, order: &'a Lpo, goal: &Goal) -> Result<Finder<'a>>
        requires fine { IsWellSorted spec.now }
    {
        let clause = of_goal(alloc, goal)?;
        let scope = scope_of(alloc, spec, &clause)?;
        let mut samples = Samples::new(alloc, spec)?;
        let known = Known::new(alloc, spec, order)?;
        let classes = Classes::new(alloc, spec, &mut samples, scope, BOUNDS)?;
        Ok(Finder {
            spec,
            clause,
            samples,
            known,
            classes,
        })
    }

    /// What is asked of the terms up to this size.
    pub fn answer(&mut self, alloc: Global, question: &str, size: u32) -> Result<Vec<String>> {
        match question {
            "scope" => self.scope(alloc),
            "terms" => self.terms(alloc, size),
            "candidates" => self.candidates(alloc, size),
            "given" => {
                let found = self.candidates(alloc, size)?;
                self.is_among(alloc, &found)
            }
            "conditional" => {
                let found = self.conditional(alloc, size)?;
                self.is_among(alloc, &found)
            }
            _ => bail!("this is no question"),
        }
    }

    /// The symbols of the goal's scope.
    fn scope(&self, alloc: Global) -> Result<Vec<String>> {
        let scope = scope_of(alloc, self.spec, &self.clause)?;
        let mut texts = Vec::new(alloc);
        for sym in &scope {
            texts.push(symbol_text(alloc, &self.spec.sig, *sym)?)?;
        }
        Ok(texts)
    }

    /// Takes in the terms up to this size, and answers the candidates that those of this size give.
    fn grow(&mut self, alloc: Global, size: u32) -> Result<Vec<Candidate>> {
        let mut last = Vec::new(alloc);
        for each in 1..=size.min(7) {
            let (samples, known) = (&mut self.samples, &mut self.known);
            last = self.classes.grow(alloc, each, samples, known, MOST_WORK)?;
        }
        Ok(last)
    }

    /// The representatives of this size.
    fn terms(&mut self, alloc: Global, size: u32) -> Result<Vec<String>> {
        self.grow(alloc, size)?;
        let mut texts = Vec::new(alloc);
        for number in 0..self.classes.len() {
            if let Some(term) = self.classes.representative(number) {
                if term.size(size.saturating_add(1)) == size {
                    texts.push(term_text(alloc, &self.spec.sig, term)?)?;
                }
            }
        }
        Ok(texts)
    }

    /// The candidates that terms of this size give.
    fn candidates(&mut self, alloc: Global, size: u32) -> Result<Vec<String>> {
        let found = self.grow(alloc, size)?;
        texts_of(alloc, self.spec, &found)
    }

    /// The candidates with a premise, once this size is done.
    fn conditional(&mut self, alloc: Global, size: u32) -> Result<Vec<String>> {
        self.grow(alloc, size)?;
        let found = self.classes.conditional(alloc, &self.samples, 4)?;
        texts_of(alloc, self.spec, &found)
    }

    /// `yes` if the goal is among the texts, and else `no`.
    fn is_among(&self, alloc: Global, texts: &[String]) -> Result<Vec<String>> {
        let own = clause_text(alloc, &self.spec.sig, &self.clause)?;
        let mut answer = Vec::new(alloc);
        answer.push(String::from_str(alloc, word(texts.contains(&own)))?)?;
        Ok(answer)
    }
}

fn word(is_so: bool) -> &'static str {
    if is_so { "yes" } else { "no" }
}

/// The texts of the candidates' clauses.
fn texts_of(alloc: Global, spec: &Spec, found: &[Candidate]) -> Result<Vec<String>> {
    let mut texts = Vec::new(alloc);
    for candidate in found {
        texts.push(clause_text(alloc, &spec.sig, &candidate.clause)?)?;
    }
    Ok(texts)
}
