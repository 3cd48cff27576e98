//! Which equation of a node leads.

ghost use Rattle.proof_search.specs.Leading.{IsLeading};
ghost use Rattle.fitting_lists.specs.Leading.{IsPlace};

use crate::side_spines::SideSpines;
use clause_core::Clause;
use fitting_lists::LeadingPlace;
use spec_core::Equation;

/// An equation of a clause, with its spines, and whether it is a conclusion.
#[derive(Clone, Copy)]
pub(crate) struct LeadingEquation<'a> {
    pub(crate) conclusion: bool,
    pub(crate) equation: &'a Equation,
    pub(crate) spines: SideSpines,
}

/// The leading equation, whose place is known.
pub(crate) fn leading_at(
    clause: &Clause,
    place: Option<LeadingPlace>,
) -> Option<LeadingEquation<'_>>
    requires { IsPlace clause.now place }
    ensures { IsLeading clause.now result }
{
    match place {
        None => None,
        Some(place) => {
            let equations = clause.equations(place.conclusion);
            Some(LeadingEquation {
                conclusion: place.conclusion,
                equation: &equations[place.index],
                spines: SideSpines {
                    left: place.left,
                    right: place.right,
                },
            })
        }
    }
}
