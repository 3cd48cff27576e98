//! The spines of an equation's sides, and whether they may become others.

ghost use Rattle.std.specs.Prelude.{◌≡◌, ◌↔◌, IsTrue, IfOk};
ghost use Rattle.proof_search.specs.SideSpines.{side_spines, listed_spines, SidesMayBecome};
ghost use Rattle.proof_search.specs.SideSpines.{MayBecomeEither};
ghost use Rattle.proof_search.specs.Leading.{kept_spines};

use fitting_lists::{LeadingPlace, Spine};
use spec_core::Equation;
use std::alloc::Global;
use term_core::OutOfMemory;

/// The spines of both sides of an equation.
#[derive(Clone, Copy)]
pub(crate) struct SideSpines {
    pub(crate) left: Spine,
    pub(crate) right: Spine,
}

impl SideSpines {
    pub(crate) fn of(equation: &Equation) -> SideSpines
        ensures { result ≡ side_spines equation.now }
    {
        SideSpines {
            left: Spine::of(&equation.left),
            right: Spine::of(&equation.right),
        }
    }

    /// Those of the equation with its sides swapped.
    pub(crate) fn swapped(self) -> SideSpines
        ensures left { result.left ≡ self.right }
        ensures right { result.right ≡ self.left }
    {
        SideSpines {
            left: self.right,
            right: self.left,
        }
    }

    /// Whether sides with these spines may become sides with the other ones.
    pub(crate) fn may_become(&self, other: &SideSpines) -> bool
        ensures { IsTrue result ↔ SidesMayBecome self.now other.now }
    {
        self.left.may_become(other.left) && self.right.may_become(other.right)
    }

    /// Whether an equation at the place may become one with these spines, as written or swapped.
    pub(crate) fn may_close(&self, place: &LeadingPlace) -> bool
        ensures { IsTrue result ↔ MayBecomeEither (kept_spines place.now) self.now }
    {
        (place.left.may_become(self.left) && place.right.may_become(self.right))
            || (place.left.may_become(self.right) && place.right.may_become(self.left))
    }
}

/// Those of the equations, in their order.
pub(crate) fn listed(alloc: Global, equations: &[Equation]) -> Result<Vec<SideSpines>, OutOfMemory>
    ensures { IfOk result (λ made. made.items ≡ listed_spines equations.now) }
{
    let mut made = Vec::with_capacity(alloc, equations.len())?;
    for equation in equations {
        made.push(SideSpines::of(equation))?;
    }
    Ok(made)
}
