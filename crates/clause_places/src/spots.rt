//! `Spots`: the places of a clause in their order.

ghost use Rattle.std.specs.Prelude.{◌≡◌, ◌<◌, IfOk, length};
ghost use Rattle.clause_places.specs.Spots.{spots as spots_in, spot_of_index};
ghost use Rattle.clause_places.specs.Numbers.{NumbersFit};

use crate::terms::{Counts, add_equations, no_terms};
use crate::walk::{Search, place_in_equations};
use clause_core::{Clause, Place};
use std::alloc::Global;
use std::marker::Model;
use term_core::{OutOfMemory, Term, TermRefs};

/// The places of a clause with the terms there, in their order. The terms alone are listed; a place
/// is found by a walk along the clause once it is asked for. Contracts see the list of the spots.
#[derive(Drop)]
pub struct Spots<'a> {
    clause: &'a Clause,
    terms: TermRefs<'a>,
    /// How many there are in the sides of each premise, and of each conclusion.
    premises: Vec<Counts>,
    conclusions: Vec<Counts>,
}

impl<'a> Model for Spots<'a> {
    ghost use Rattle.std.specs.Prelude.{List};
    ghost use Rattle.std.specs.Coded.{coded_list};
    ghost use Rattle.clause_places.specs.Spots.{Spot, spots};
    ghost use Rattle.clause_places.specs.Codes.{coded_spot};

    ghost Value = { List Spot };

    ghost coded = { coded_list coded_spot };

    ghost use Rattle.clause_places.specs.Listed.{AreListed};

    ghost view = { λ a. spots a.clause.now };

    ghost invariant = { λ a. AreListed a.clause.now a.terms a.premises.items a.conclusions.items };
}

impl<'a> Spots<'a> {
    /// The places of each node of a proof have numbers that fit ([`crate::places_are_there`]).
    pub fn of(alloc: Global, clause: &'a Clause) -> Result<Spots<'a>, OutOfMemory>
        requires { NumbersFit clause.now }
        ensures { IfOk result (λ made. made ≡ spots_in clause.now) }
    {
        let mut terms = no_terms(alloc)?;
        let premises = add_equations(alloc, clause.premises.as_slice(), &mut terms)?;
        let conclusions = add_equations(alloc, clause.conclusions.as_slice(), &mut terms)?;
        Ok(Spots {
            clause,
            terms,
            premises,
            conclusions,
        })
    }

    pub fn len(&self) -> usize
        ensures { result ≡ length self.now }
    {
        self.terms.as_slice().len()
    }

    /// The term of the spot of this index.
    pub fn term(&self, index: usize) -> &'a Term
        requires { index < length self.now }
        ensures { result.now ≡ (spot_of_index self.now index).term }
    {
        self.terms.at(index)
    }

    /// The place of the spot of this index.
    pub fn place(&self, alloc: Global, index: usize) -> Result<Place, OutOfMemory>
        requires { index < length self.now }
        ensures { IfOk result (λ made. made ≡ (spot_of_index self.now index).place) }
    {
        let premises = self.clause.premises.as_slice();
        let conclusions = self.clause.conclusions.as_slice();
        let counts = self.premises.as_slice();
        match place_in_equations(alloc, false, 1, premises, counts, index)? {
            Search::Found(place) => Ok(place),
            Search::Left(left) => {
                let counts = self.conclusions.as_slice();
                match place_in_equations(alloc, true, 1, conclusions, counts, left)? {
                    Search::Found(place) => Ok(place),
                    Search::Left(_) => unreachable!(),
                }
            }
        }
    }
}
