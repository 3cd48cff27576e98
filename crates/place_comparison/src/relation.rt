//! `relation_at`: how two clauses that differ at a place compare.

ghost use Rattle.std.specs.Prelude.{◌≡◌};
ghost use Rattle.clause_core.specs.declared.clauses.Clause.{Clause as ClauseOf};
ghost use Rattle.clause_core.specs.declared.steps.Place.{Place as PlaceOf};
ghost use Rattle.clause_core.specs.Comparing.{Compares, IsTestable};
ghost use Rattle.clause_core.specs.Places.{TermAt, holding};
ghost use Rattle.place_comparison.specs.AtPlaces.{TermsCompare};

use crate::laws::place_decides;
use clause_core::Relation;
use term_core::Term;
use term_order::TermOrder;

/// How a clause with the old term at a place compares with the one that holds the new term there,
/// whatever else is in the clause. The two clauses aren't looked at: it is one test for
/// equality, and if the terms differ one test by the order.
pub fn relation_at<O: TermOrder>(order: &O, old: &Term, new: &Term) -> Relation
    requires old { IsTestable old.now }
    requires new { IsTestable new.now }
    ensures { (c : ClauseOf) (place : PlaceOf) (at : TermAt c place) → at.term ≡ old.now →
        Compares (O.above order.now) c (holding at new.now) result }
{
    place_decides(order);
    compared(order, old, new)
}

/// How the old term compares with the new one.
fn compared<O: TermOrder>(order: &O, old: &Term, new: &Term) -> Relation
    requires old { IsTestable old.now }
    requires new { IsTestable new.now }
    ensures { TermsCompare (O.above order.now) old.now new.now result }
{
    if old.same(new) {
        return Relation::Same;
    }
    if order.greater(old, new) {
        return Relation::Less;
    }
    Relation::Neither
}
