//! `Store`: the rules and the known clauses, found by their symbols.

ghost use Rattle.std.specs.Prelude.{◌≡◌, [], ◌∷◌, ◌++◌, Some, IfOk, IfSome, OnOk, OnErr};
ghost use Rattle.std.specs.Prelude.{length, slice_get, take};
ghost use Rattle.known_equations.specs.Knowledge.{with_clauses};

use crate::clauses::KnownClause;
use crate::heads::HeadTable;
use clause_core::Clause;
use spec_core::{RuleTable, Spec};
use std::alloc::Global;
use std::marker::Model;
use term_core::OutOfMemory;
use term_order::TermOrder;

/// The rules of a specification by their functions, and the clauses that are known. Contracts see
/// the specification, the order and the clauses.
#[derive(Drop)]
pub(crate) struct Store<'a, O: TermOrder> {
    pub(crate) spec: &'a Spec,
    pub(crate) order: &'a O,
    pub(crate) rules: RuleTable,
    pub(crate) clauses: Vec<KnownClause>,
    pub(crate) heads: HeadTable,
}

impl<'a, O: TermOrder> Model for Store<'a, O> {
    ghost use Rattle.std.specs.Prelude.{map};
    ghost use Rattle.std.specs.Coded.{coded_list};
    ghost use Rattle.spec_core.specs.contracts.records.Spec as spec_contract;
    ghost use Rattle.clause_core.specs.contracts.clauses.Clause as clause_contract;
    ghost use Rattle.known_equations.specs.declared.clauses.KnownClause.{KnownClause};
    ghost use Rattle.known_equations.specs.Knowledge.{Knowledge, knowledge_code};

    ghost Value = { Knowledge O };

    ghost coded = { knowledge_code spec_contract.the_row.coded O.code
        (coded_list clause_contract.the_row.coded) };

    ghost view = { λ a. record {
      spec = a.spec.now;
      order = a.order.now;
      clauses = map (λ (k : KnownClause). k.clause) a.clauses.items;
    } };
}

impl<'a, O: TermOrder> Store<'a, O> {
    pub(crate) fn new(
        alloc: Global,
        spec: &'a Spec,
        order: &'a O,
    ) -> Result<Store<'a, O>, OutOfMemory>
        ensures { IfOk result (λ made.
            made ≡ record { spec = spec.now; order = order.now; clauses = [] }) }
    {
        Ok(Store {
            spec,
            order,
            rules: RuleTable::new(alloc, spec)?,
            clauses: Vec::new(alloc),
            heads: HeadTable::new(alloc),
        })
    }

    pub(crate) fn len(&self) -> usize
        ensures { result ≡ length self.now.clauses }
    {
        self.clauses.len()
    }

    /// The clause with this number, from 0.
    #[tactic(auto, using(crate::proofs::KnownClauses::clause_at))]
    pub(crate) fn known_at(&self, number: usize) -> Option<&KnownClause>
        ensures { IfSome result (λ known.
            slice_get self.now.clauses number ≡ Some known.now.clause) }
    {
        self.clauses.get(number)
    }

    /// Adds a copy of the clause.
    pub(crate) fn add(&mut self, alloc: Global, clause: &Clause) -> Result<(), OutOfMemory>
        ensures added { OnOk result
            (self.new ≡ with_clauses self.old (self.old.clauses ++ clause.now ∷ [])) }
        ensures kept { OnErr result (self.new ≡ self.old) }
    {
        let known = KnownClause::of(alloc, self.order, clause)?;
        let number = self.clauses.len();
        if let Some(sym) = known.left {
            self.heads.add(alloc, sym, number)?;
        }
        if let Some(sym) = known.right {
            if known.left != known.right {
                self.heads.add(alloc, sym, number)?;
            }
        }
        self.clauses.push(known)?;
        Ok(())
    }

    /// Keeps this many clauses, those that were added first.
    pub(crate) fn truncate(&mut self, count: usize)
        ensures { self.new ≡ with_clauses self.old (take count self.old.clauses) }
    {
        self.clauses.truncate(count);
        self.heads.truncate(count);
    }
}
