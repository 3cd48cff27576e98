//! `Admitted`: a specification with the order that admits it.

use spec_core::Spec;
use std::marker::Model;
use term_order::TermOrder;

/// A specification that is admitted by its order. Contracts see the two as an `Admission`.
#[derive(Drop)]
pub struct Admitted<O: TermOrder> {
    pub spec: Spec,
    pub order: O,
}

impl<O: TermOrder> Model for Admitted<O> {
    ghost use Rattle.spec_core.specs.contracts.records.Spec as spec_contract;
    ghost use Rattle.spec_admit.specs.Admission.{Admission, admission_code};

    ghost Value = { Admission O };

    ghost coded = { admission_code spec_contract.the_row.coded O.code };

    ghost use Rattle.spec_core.specs.WellSorted.{IsWellSorted};
    ghost use Rattle.clause_core.specs.Admitted.{IsAdmitted};

    ghost view = { λ a. record { spec = a.spec; order = a.order } };

    ghost invariant = { λ a. IsWellSorted a.spec × IsAdmitted (O.above a.order) a.spec };
}
