//! From bytes to an accepted specification or a term, or to a refusal.

ghost use Rattle.std.specs.Prelude.{◌≡◌, ◌≤◌, IfOk, IfErr, [], length};
ghost use Rattle.term_core.specs.declared.ids.SortId.{SortId};
ghost use Rattle.spec_core.specs.Sorts.{Sorted};
ghost use Rattle.spec_core.specs.WellSorted.{IsWellSorted};
ghost use Rattle.clause_core.specs.Admitted.{IsAdmitted};
ghost use Rattle.spec_order.specs.Orders.{above_by, order_of as own_order};
ghost use Rattle.accepted_spec.specs.Meanings.{IsAcceptedAs, TermTextStandsFor};
ghost use Rattle.accepted_spec.specs.Refusals.{IsRefusalOf, IsTermRefusal};
ghost use Rattle.accepted_spec.specs.Tellings.{Tells};

use crate::admission::admit_refusal;
use crate::refusals::{Refusal, Subject, sort_refusal, syntax_refusal};
use sort_check::{elaborate, elaborate_term, numbering_keeps_sizes};
use spec_admit::{Admitted, admit};
use spec_core::{Signature, Spec};
use spec_order::AnyOrder;
use spec_syntax::{RawSpec, read, read_term};
use std::alloc::Global;
use term_core::{OutOfMemory, Term};

/// A specification that its own order admits, and how its text has it.
#[derive(Drop)]
pub struct Accepted {
    pub raw: RawSpec,
    pub admitted: Admitted<AnyOrder>,
}

impl Accepted {
    /// What goals are searched and terms are evaluated in.
    pub fn spec(&self) -> &Spec
        ensures is { result.now ≡ self.now.admitted.spec }
        ensures sorted { IsWellSorted result.now }
        ensures admitted { IsAdmitted (above_by self.now.admitted.order) result.now }
    {
        &self.admitted.spec
    }
}

/// The admitted specification that the bytes of a file stand for, or the line of their first fault.
pub fn specification(alloc: Global, bytes: &[u8]) -> Result<Accepted, Refusal>
    requires { length bytes.now ≤ 4194304 }
    ensures accepted { IfOk result (λ a. IsAcceptedAs bytes.now a.raw a.admitted.spec) }
    ensures ordered { IfOk result (λ a. a.admitted.order ≡ own_order a.admitted.spec) }
    ensures refused { IfErr result (Tells (IsRefusalOf bytes.now)) }
{
    let raw = match read(alloc, bytes) {
        Ok(raw) => raw,
        Err(fault) => return Err(syntax_refusal(alloc, Subject::File, fault)),
    };
    let spec = match elaborate(alloc, &raw) {
        Ok(spec) => spec,
        Err(fault) => return Err(sort_refusal(alloc, Subject::File, fault)),
    };
    numbering_keeps_sizes();
    let order = AnyOrder::of(alloc, &spec)?;
    match admit(alloc, spec, order) {
        Ok(admitted) => Ok(Accepted { raw, admitted }),
        Err(error) => Err(admit_refusal(alloc, &error.spec.sig, &error.fault)),
    }
}

/// The term without variables that bytes stand for over a signature, or the line of their first
/// fault.
pub fn ground_term(alloc: Global, sig: &Signature, bytes: &[u8]) -> Result<Term, Refusal>
    ensures stands { IfOk result (TermTextStandsFor sig.now bytes.now) }
    ensures sorted { IfOk result (λ t. (s : SortId) × Sorted sig.now [] t s) }
    ensures refused { IfErr result (Tells (IsTermRefusal sig.now bytes.now)) }
{
    let raw = match read_term(alloc, bytes) {
        Ok(raw) => raw,
        Err(fault) => return Err(syntax_refusal(alloc, Subject::Term, fault)),
    };
    match elaborate_term(alloc, sig, &raw) {
        Ok(term) => Ok(term),
        Err(fault) => Err(sort_refusal(alloc, Subject::Term, fault)),
    }
}
