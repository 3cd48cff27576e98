//! `Rewriter`, which normalizes many terms.

ghost use Rattle.std.specs.Prelude.{◌≡◌, IfOk};
ghost use Rattle.spec_core.specs.RuleTables.{numbers_of};

use spec_core::{Rule, RuleTable, Spec};
use std::alloc::Global;
use std::marker::Model;
use term_core::{OutOfMemory, SymId};

/// The rules of a specification, found by their function. Who normalizes more than one term makes
/// one. Contracts see the specification.
#[derive(Drop)]
pub struct Rewriter<'a> {
    spec: &'a Spec,
    table: RuleTable,
}

impl<'a> Model for Rewriter<'a> {
    ghost use Rattle.spec_core.specs.declared.records.Spec.{Spec};
    ghost use Rattle.spec_core.specs.contracts.records.Spec as spec_contract;

    ghost Value = { Spec };

    ghost coded = { spec_contract.the_row.coded };

    ghost view = { λ r. r.spec.now };

    ghost use Rattle.spec_core.specs.RuleTables.{IsTableOf};

    ghost invariant = { λ r. IsTableOf r.spec.now r.table };
}

impl<'a> Rewriter<'a> {
    /// Finds each function's rules, which takes one pass over all rules.
    pub fn new(alloc: Global, spec: &'a Spec) -> Result<Rewriter<'a>, OutOfMemory>
        ensures { IfOk result (λ r. r ≡ spec.now) }
    {
        let table = RuleTable::new(alloc, spec)?;
        Ok(Rewriter { spec, table })
    }

    /// All rules, in their order.
    pub(crate) fn rules(&self) -> &[Rule]
        ensures { result.now ≡ self.now.rules }
    {
        self.spec.rules.as_slice()
    }

    /// The places of the function's rules among all rules, in their order.
    pub(crate) fn rules_of(&self, sym: SymId) -> &[usize]
        ensures { result.now ≡ numbers_of sym.0 0 self.now.rules }
    {
        self.table.rules_of(sym)
    }
}
