//! The term at a place of a clause, and another one in it.

ghost use Rattle.std.specs.Prelude.{◌≡◌, IfOk, MatchOption};
ghost use Rattle.term_core.specs.Tree.{Tree};
ghost use Rattle.term_core.specs.Places.{IsAt, IsReplaced};
ghost use Rattle.clause_core.specs.Places.{TermAt, side as side_of, with_side};
ghost use Rattle.clause_core.specs.Places.{holding as holding_clause};

use crate::clauses::Clause;
use crate::steps::Place;
use spec_core::Equation;
use std::alloc::Global;
use term_core::{OutOfMemory, ReplaceError, Term};

impl Clause {
    /// The term at the place.
    pub fn term_at(&self, place: &Place) -> Option<&Term>
        ensures { MatchOption result (TermAt self.now place.now → ⊥)
            (λ t. (p : TermAt self.now place.now) × (p.term ≡ t.now)) }
    {
        let equation = self.equation(place.conclusion, place.number)?;
        side(equation, place.left).at(place.path.as_slice())
    }

    /// A copy whose place holds another term.
    pub fn holding(&self, alloc: Global, place: &Place, new: Term) -> Result<Clause, OutOfMemory>
        requires { TermAt self.now place.now }
        ensures { IfOk result (λ made. (p : TermAt self.now place.now) →
            made ≡ holding_clause p new) }
    {
        let Some(equation) = self.equation(place.conclusion, place.number) else {
            unreachable!()
        };
        let changed = replaced(alloc, equation, place.left, place.path.as_slice(), new)?;
        let mut made = Vec::new(alloc);
        made.push(changed)?;
        self.exchanged(alloc, place.conclusion, place.number, made)
    }
}

/// The left side if true, the right one if false.
pub fn side(equation: &Equation, left: bool) -> &Term
    ensures { result.now ≡ side_of left equation.now }
{
    if left {
        &equation.left
    } else {
        &equation.right
    }
}

/// A copy with another term at the path in this side.
fn replaced(
    alloc: Global,
    equation: &Equation,
    left: bool,
    path: &[u8],
    new: Term,
) -> Result<Equation, OutOfMemory>
    requires { (t : Tree) × IsAt path.now (side_of left equation.now) t }
    ensures { IfOk result (λ made. (t : Tree) × (made ≡ with_side left equation.now t)
        × IsReplaced path.now (side_of left equation.now) new t) }
{
    let changed = match side(equation, left).replace(alloc, path, new) {
        Ok(changed) => changed,
        Err(ReplaceError::OutOfMemory) => return Err(OutOfMemory),
        Err(ReplaceError::NoSuchPlace) => unreachable!(),
    };
    let kept = side(equation, !left).copy(alloc)?;
    if left {
        return Ok(Equation {
            left: changed,
            right: kept,
        });
    }
    Ok(Equation {
        left: kept,
        right: changed,
    })
}
