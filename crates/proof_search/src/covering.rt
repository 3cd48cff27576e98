//! The entry `cover`.

ghost use Rattle.std.specs.Prelude.{◌≡◌, IfOk};
ghost use Rattle.routine_proof.specs.Entries.{cover, demanded_covers};
ghost use Rattle.proof_search.specs.Taking.{IsAt, IsFound};

use crate::at::{Asked, At, taken};
use clause_core::Step;
use clause_places::asked;
use routine_proof::Move;
use std::alloc::Global;
use term_core::{OutOfMemory, Seq, VarId};
use term_order::TermOrder;
use test_sets::test_set;

/// The cover of the variable that is asked for.
pub(crate) fn demanded_cover<O: TermOrder>(
    alloc: Global,
    order: &O,
    at: &At,
) -> Result<Option<Move>, OutOfMemory>
    requires { IsAt at.now }
    ensures { IfOk result (IsFound (O.above order.now) at.now
        (demanded_covers at.now.setting.now.spec.now at.now.here.now)) }
{
    let setting = at.setting;
    match asked(alloc, setting.spec, at.here)? {
        None => Ok(None),
        Some(variable) => cover_of(alloc, order, at, variable),
    }
}

/// The cover of the variable by the test set of its sort.
pub(crate) fn cover_of<O: TermOrder>(
    alloc: Global,
    order: &O,
    at: &At,
    variable: VarId,
) -> Result<Option<Move>, OutOfMemory>
    requires { IsAt at.now }
    ensures { IfOk result (IsFound (O.above order.now) at.now
        (cover at.now.setting.now.spec.now at.now.here.now variable.0)) }
{
    let Some(sort) = at.here.ctx.as_slice().get(variable.0 as usize) else {
        return Ok(None);
    };
    let setting = at.setting;
    let patterns = test_set(alloc, &setting.spec.sig, *sort)?;
    let step = Step::Cover(variable, Seq::from_vec(patterns));
    taken(alloc, order, at, step, Asked::Nothing)
}
