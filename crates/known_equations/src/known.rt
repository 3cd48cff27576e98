//! `Known`: what is known, and what it makes needless.

ghost use Rattle.std.specs.Prelude.{◌≡◌, [], ◌∷◌, ◌++◌, IsTrue, IfOk, OnOk, OnErr, length, take};
ghost use Rattle.known_equations.specs.Knowledge.{with_clauses};
ghost use Rattle.known_equations.specs.Uses.{Rewrites, IsReducible};
ghost use Rattle.known_equations.specs.Chains.{Chain};
ghost use Rattle.known_equations.specs.Redundant.{AreJoined, IsRedundant};

use crate::store::Store;
use clause_core::Clause;
use spec_core::{Equation, Spec};
use std::alloc::Global;
use std::marker::Model;
use substitutions::Subst;
use term_core::{OutOfMemory, Term};
use term_order::TermOrder;

/// The most fuel of [`Known::normal`]. The stack grows with the uses inside one another.
pub const MOST_FUEL: u32 = 1000;

/// The fuel for a side of a conclusion, when it is asked whether a clause is redundant.
const SIDE_FUEL: u32 = 200;

/// Clauses that are known over a specification. Contracts see the specification, the order and the
/// clauses, in the order in which they were added.
#[derive(Drop)]
pub struct Known<'a, O: TermOrder> {
    store: Store<'a, O>,
    work: u64,
}

impl<'a, O: TermOrder> Model for Known<'a, O> {
    ghost use Rattle.std.specs.Coded.{coded_list};
    ghost use Rattle.spec_core.specs.contracts.records.Spec as spec_contract;
    ghost use Rattle.clause_core.specs.contracts.clauses.Clause as clause_contract;
    ghost use Rattle.known_equations.specs.Knowledge.{Knowledge, knowledge_code};

    ghost Value = { Knowledge O };

    ghost coded = { knowledge_code spec_contract.the_row.coded O.code
        (coded_list clause_contract.the_row.coded) };

    ghost view = { λ a. a.store };
}

impl<'a, O: TermOrder> Known<'a, O> {
    /// No clauses yet.
    pub fn new(alloc: Global, spec: &'a Spec, order: &'a O) -> Result<Known<'a, O>, OutOfMemory>
        ensures { IfOk result (λ made.
            made ≡ record { spec = spec.now; order = order.now; clauses = [] }) }
    {
        Ok(Known {
            store: Store::new(alloc, spec, order)?,
            work: 0,
        })
    }

    /// The order in which uses fall.
    pub fn order(&self) -> &'a O
        ensures { result.now ≡ self.now.order }
    {
        self.store.order
    }

    /// How many clauses are known.
    pub fn len(&self) -> usize
        ensures { result ≡ length self.now.clauses }
    {
        self.store.len()
    }

    /// Adds a copy of the clause.
    pub fn add(&mut self, alloc: Global, clause: &Clause) -> Result<(), OutOfMemory>
        ensures added { OnOk result
            (self.new ≡ with_clauses self.old (self.old.clauses ++ clause.now ∷ [])) }
        ensures kept { OnErr result (self.new ≡ self.old) }
    {
        self.store.add(alloc, clause)
    }

    /// Keeps this many clauses, those that were added first.
    pub fn truncate(&mut self, count: usize)
        ensures { self.new ≡ with_clauses self.old (take count self.old.clauses) }
    {
        self.store.truncate(count);
    }

    /// How many patterns were tried so far.
    pub fn work(&self) -> u64 {
        self.work
    }

    /// Whether a rule without guards or a known equation rewrites the term at its root. An equation
    /// does so if the term is above what it becomes.
    pub fn is_reducible(&mut self, alloc: Global, term: &Term) -> Result<bool, OutOfMemory>
        ensures reducible { IfOk result (λ yes. IsTrue yes →
            IsReducible (O.above self.old.order) self.old term.now) }
        ensures kept { self.new ≡ self.old }
    {
        let found = self.store.rewriting(alloc, term, &mut self.work)?;
        Ok(found.is_some())
    }

    /// What the term becomes by such uses, innermost first, as far as the fuel reaches: each symbol
    /// that is walked and each use takes one of it. More than [`MOST_FUEL`] counts as that.
    pub fn normal(&mut self, alloc: Global, term: &Term, fuel: u32) -> Result<Term, OutOfMemory>
        ensures chain { IfOk result
            (Chain (Rewrites (O.above self.old.order) self.old) term.now) }
        ensures kept { self.new ≡ self.old }
    {
        let mut fuel = fuel.min(MOST_FUEL);
        let entries = Subst::new(alloc);
        self.store
            .normal_instance(alloc, term, &entries, &mut fuel, &mut self.work)
    }

    /// Whether the clause says nothing new: the sides of a conclusion become one term, or an
    /// instance of a known clause says no less.
    pub fn is_redundant(&mut self, alloc: Global, clause: &Clause) -> Result<bool, OutOfMemory>
        ensures redundant { IfOk result (λ yes. IsTrue yes →
            IsRedundant (O.above self.old.order) self.old clause.now) }
        ensures kept { self.new ≡ self.old }
    {
        for equation in clause.conclusions.as_slice() {
            if self.joins(alloc, equation)? {
                return Ok(true);
            }
        }
        self.store.covers(alloc, clause, &mut self.work)
    }

    /// Whether the sides of the equation become one term.
    fn joins(&mut self, alloc: Global, equation: &Equation) -> Result<bool, OutOfMemory>
        ensures joined { IfOk result (λ yes. IsTrue yes →
            AreJoined (Rewrites (O.above self.old.order) self.old) equation.now) }
        ensures kept { self.new ≡ self.old }
    {
        let left = self.normal(alloc, &equation.left, SIDE_FUEL)?;
        let right = self.normal(alloc, &equation.right, SIDE_FUEL)?;
        Ok(left.same(&right))
    }
}
