//! `within_at`: whether a clause with another term at a place is within the limits.

ghost use Rattle.std.specs.Prelude.{◌≡◌, ◌↔◌, ◌≤◌, IsTrue, min};
ghost use Rattle.term_core.specs.Tree.{trees_of, sizes};
ghost use Rattle.clause_core.specs.Clauses.{sides_of};
ghost use Rattle.clause_core.specs.Limits.{IsWithin, clause_size};
ghost use Rattle.clause_core.specs.Places.{TermAt, holding};

use clause_core::{Clause, MOST_LEVELS, MOST_SYMBOLS, Place};
use spec_core::Equation;
use term_core::Term;

/// Whether the clause stays within the limits of a clause in a proof when the place holds the new
/// term instead of the old one. The clause that holds it isn't built, and of the new term no more
/// is walked than there is room for.
pub fn within_at(clause: &Clause, place: &Place, old: &Term, new: &Term) -> bool
    requires within { IsWithin clause.now }
    requires there { (at : TermAt clause.now place.now) × (at.term ≡ old.now) }
    ensures { (at : TermAt clause.now place.now) →
        IsTrue result ↔ IsWithin (holding at new.now) }
{
    if !has_room(clause, place, old, new) {
        return false;
    }
    let levels = MOST_LEVELS - place.path.len() as u32;
    new.depth(levels + 1) <= levels
}

/// Whether the clause with the new term has no more symbols than the limits allow. That is so if
/// the new term isn't larger than the old one, and then the clause isn't walked.
fn has_room(clause: &Clause, place: &Place, old: &Term, new: &Term) -> bool
    requires within { IsWithin clause.now }
    requires there { (at : TermAt clause.now place.now) × (at.term ≡ old.now) }
    ensures { (at : TermAt clause.now place.now) →
        IsTrue result ↔ (clause_size (holding at new.now) ≤ 4000) }
{
    let part = old.size(MOST_SYMBOLS);
    if new.size(part + 1) <= part {
        return true;
    }
    let premises = size(clause.premises.as_slice(), MOST_SYMBOLS);
    let conclusions = size(clause.conclusions.as_slice(), MOST_SYMBOLS);
    let kept = premises + conclusions - part;
    let room = MOST_SYMBOLS - kept;
    new.size(room + 1) <= room
}

/// The sum of the sizes of the sides, or `cap` if that is less.
fn size(equations: &[Equation], cap: u32) -> u32
    ensures { result ≡ min (sizes (trees_of (sides_of equations.now))) cap }
{
    let mut size: u32 = 0;
    for equation in equations {
        size += equation.left.size(cap - size);
        size += equation.right.size(cap - size);
    }
    size
}
