//! `claims_of`: the claims of `prove`, in memory.

ghost use Rattle.std.specs.Prelude.{◌≡◌, ◌≤◌, [], IfOk};
ghost use Rattle.spec_order.specs.Orders.{order_of};
ghost use Rattle.search_claims.specs.Claims.{AreClaims};
ghost use Rattle.spike_cli.specs.Claims.{IsNextClaim};

use crate::claims::{NumberedGoal, claim_on};
use crate::reporting::add_proved;
use clause_core::Claim;
use command_line::ProofBounds;
use routine_proof::proves_behind_claims;
use spec_admit::Admitted;
use spec_order::AnyOrder;
use std::alloc::Global;
use term_core::OutOfMemory;

/// The claims on all goals, each with the goals proved before as lemmas: those of the report that
/// `write_report` writes with these bounds.
pub fn claims_of(
    alloc: Global,
    admitted: &Admitted<AnyOrder>,
    bounds: ProofBounds,
) -> Result<Vec<Claim>, OutOfMemory>
    requires ordered { admitted.now.order ≡ order_of admitted.now.spec }
    requires short { bounds.plain ≤ 1000 }
    ensures { IfOk result (λ made. AreClaims (IsNextClaim bounds admitted.now.spec) []
        admitted.now.spec.goals made.items) }
{
    let Admitted { spec, order } = admitted;
    proves_behind_claims(order);
    let mut made = Vec::new(alloc);
    let mut proved = Vec::new(alloc);
    for (number, goal) in spec.goals.as_slice().iter().enumerate() {
        let number = number as u32;
        let goal = NumberedGoal { number, goal };
        let claim = claim_on(alloc, admitted, goal, bounds, &proved)?;
        add_proved(&mut proved, number, &claim.outcome)?;
        made.push(claim)?;
    }
    Ok(made)
}
