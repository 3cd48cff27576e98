//! Whether an instance of a known clause says no less than a clause.

ghost use Rattle.std.specs.Prelude.{◌↔◌, ◌⊎◌, IsTrue, IfOk};
ghost use Rattle.std.specs.List.{AllByRecursion};
ghost use Rattle.spec_core.specs.declared.records.Equation.{Equation as EquationOf};
ghost use Rattle.clause_core.specs.Equations.{Among, IsIdentity};
ghost use Rattle.clause_core.specs.Referred.{PremisesAreThere};
ghost use Rattle.clause_core.specs.Subsuming.{Subsumes};
ghost use Rattle.known_equations.specs.Redundant.{IsCovered, IsCoveredBy};

use crate::clauses::KnownClause;
use crate::store::Store;
use clause_core::{Clause, among, instance, instance_within, is_identity};
use fitting_lists::may_become;
use matching::{Bindings, bind};
use spec_core::{Equation, Signature};
use std::alloc::Global;
use substitutions::Subst;
use term_core::{OutOfMemory, Seq, Term, VarId};
use term_order::TermOrder;

/// A clause, and a known one with its leading equation, by whose instance it may be covered.
#[derive(Drop)]
struct Covering<'a> {
    sig: &'a Signature,
    here: &'a Clause,
    known: &'a Clause,
    equation: &'a Equation,
}

impl<'a, O: TermOrder> Store<'a, O> {
    /// Whether an instance of a known clause says no less than the clause.
    pub(crate) fn covers(
        &self,
        alloc: Global,
        clause: &Clause,
        work: &mut u64,
    ) -> Result<bool, OutOfMemory>
        ensures { IfOk result (λ yes. IsTrue yes → IsCovered self.now clause.now) }
    {
        for number in 0..self.len() {
            let Some(known) = self.known_at(number) else {
                continue;
            };
            if is_covered(alloc, &self.spec.sig, clause, known, work)? {
                return Ok(true);
            }
        }
        Ok(false)
    }
}

/// Whether it is an instance by which the leading equation becomes one of the same kind.
fn is_covered(
    alloc: Global,
    sig: &Signature,
    here: &Clause,
    by: &KnownClause,
    work: &mut u64,
) -> Result<bool, OutOfMemory>
    ensures { IfOk result (λ yes. IsTrue yes →
        IsCoveredBy sig.now here.now by.now.clause) }
{
    let Some(place) = by.leading else {
        return Ok(false);
    };
    let known = &by.clause;
    let Some(equation) = known.equations(place.conclusion).get(place.index) else {
        return Ok(false);
    };
    let covering = Covering {
        sig,
        here,
        known,
        equation,
    };
    for other in here.equations(place.conclusion) {
        if covering.either_way(alloc, other, work)? {
            return Ok(true);
        }
    }
    Ok(false)
}

impl<'a> Covering<'a> {
    /// Whether it is the instance by which the leading equation becomes this one, as written or
    /// with its sides swapped.
    fn either_way(
        &self,
        alloc: Global,
        equation: &Equation,
        work: &mut u64,
    ) -> Result<bool, OutOfMemory>
        ensures { IfOk result (λ yes. IsTrue yes →
            IsCoveredBy self.now.sig.now self.now.here.now self.now.known.now) }
    {
        *work = work.saturating_add(2);
        if self.fits(alloc, &equation.left, &equation.right)? {
            return Ok(true);
        }
        self.fits(alloc, &equation.right, &equation.left)
    }

    /// Whether it is the instance by which the leading equation gets these sides.
    fn fits(&self, alloc: Global, left: &Term, right: &Term) -> Result<bool, OutOfMemory>
        ensures { IfOk result (λ yes. IsTrue yes →
            IsCoveredBy self.now.sig.now self.now.here.now self.now.known.now) }
    {
        let sorts = self.known.ctx.as_slice();
        let Some(entries) = fitting_entries(alloc, sorts.len(), self.equation, left, right)? else {
            return Ok(false);
        };
        let ctx = self.here.ctx.as_slice();
        if !entries.fits(self.sig, sorts, ctx) || !instance_within(self.known, &entries) {
            return Ok(false);
        }
        let made = instance(alloc, self.known, &entries, ctx)?;
        Ok(subsumes(self.here, &made))
    }
}

/// Entries for the first `count` variables, by which the equation gets these sides, if there are
/// such. If their symbols differ, nothing is copied.
fn fitting_entries(
    alloc: Global,
    count: usize,
    equation: &Equation,
    left: &Term,
    right: &Term,
) -> Result<Option<Subst>, OutOfMemory> {
    if !may_become(&equation.left, left) || !may_become(&equation.right, right) {
        return Ok(None);
    }
    let mut bindings = Bindings::new(alloc);
    if !bind(&equation.left, left, &mut bindings)? {
        return Ok(None);
    }
    if !bind(&equation.right, right, &mut bindings)? {
        return Ok(None);
    }
    Ok(Some(entries_of(alloc, count, &bindings)?))
}

/// The entries of the first `count` variables.
fn entries_of(alloc: Global, count: usize, bindings: &Bindings) -> Result<Subst, OutOfMemory> {
    let count = count.min(u32::MAX as usize) as u32;
    let mut made = Vec::with_capacity(alloc, count as usize)?;
    for number in 0..count {
        let entry = match bindings.get(VarId(number)) {
            Some(term) => Some(term.copy(alloc)?),
            None => None,
        };
        made.push(entry)?;
    }
    Ok(Subst {
        terms: Seq::from_vec(made),
    })
}

/// Whether the premises of the instance are there, and each conclusion of it is among the
/// conclusions here.
fn subsumes(here: &Clause, instance: &Clause) -> bool
    ensures { IsTrue result ↔ Subsumes here.now instance.now }
{
    premises_are_there(here, instance.premises.as_slice())
        && each_among(instance.conclusions.as_slice(), here.conclusions.as_slice())
}

/// Whether each of the premises is among the premises here or has identical sides.
fn premises_are_there(here: &Clause, premises: &[Equation]) -> bool
    ensures { IsTrue result ↔ AllByRecursion
        (λ (e : EquationOf). Among e here.now.premises ⊎ IsIdentity e) premises.now }
{
    premises
        .iter()
        .all(|premise| premise_is_there(here, premise))
}

fn premise_is_there(here: &Clause, premise: &Equation) -> bool
    ensures { IsTrue result ↔ (Among premise.now here.now.premises ⊎ IsIdentity premise.now) }
{
    among(premise, here.premises.as_slice()) || is_identity(premise)
}

/// Whether each of the equations is among the others.
fn each_among(equations: &[Equation], others: &[Equation]) -> bool
    ensures { IsTrue result ↔
        AllByRecursion (λ (e : EquationOf). Among e others.now) equations.now }
{
    equations.iter().all(|equation| among(equation, others))
}
