//! `plain`: the block of the first variable with a plain proof.

ghost use Rattle.std.specs.Prelude.{◌≡◌, ◌≤◌, ℕ, Some, IfOk, slice_get};
ghost use Rattle.plain_search.specs.Plain.{IsPlainAnswer};

use crate::laws::{one_block, plain_blocks};
use crate::making::block_on;
use clause_core::Block;
use plain_proof::first_plain;
use spec_admit::Admitted;
use spec_core::Goal;
use std::alloc::Global;
use term_core::OutOfMemory;
use term_order::TermOrder;

/// The block of the plain proof of the goal on the first variable, in the goal's own order, that
/// has one of at most this length.
pub fn plain<O: TermOrder>(
    alloc: Global,
    admitted: &Admitted<O>,
    goal: &Goal,
    length: u32,
) -> Result<Option<Block>, OutOfMemory>
    requires listed { (k : ℕ) × (slice_get admitted.now.spec.goals k ≡ Some goal.now) }
    requires short { length ≤ 1000 }
    ensures { IfOk result (IsPlainAnswer (O.above admitted.now.order) admitted.now.spec goal.now
        length) }
{
    let Admitted { spec, order } = admitted;
    plain_blocks(order);
    one_block::<O>();
    match first_plain(alloc, spec, goal, length)? {
        None => Ok(None),
        Some(var) => Ok(Some(block_on(alloc, spec, order, goal, var)?)),
    }
}
