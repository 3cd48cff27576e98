//! The text of an exploration, accepted again.

ghost use Rattle.std.specs.Prelude.{IfOk};
ghost use Rattle.explorations.specs.Answers.{AcceptsText};

use accepted_spec::{Accepted, Refusal, specification};
use sort_check::{faulty_stands_for_none, one_specification};
use spec_admit::no_fault_where_admitted;
use spec_grammar::{file_limit, one_reading};
use spec_order::AnyOrder;
use spec_syntax::one_fault;
use std::alloc::Global;
use term_core::OutOfMemory;

/// The specification that a text is accepted as, if it isn't too long for a file.
pub(crate) fn accepted_text(alloc: Global, text: &[u8]) -> Result<Option<Accepted>, OutOfMemory>
    ensures { IfOk result (AcceptsText text.now) }
{
    one_reading();
    one_fault();
    faulty_stands_for_none();
    one_specification();
    no_fault_where_admitted::<AnyOrder>();
    if text.len() > file_limit(text) {
        return Ok(None);
    }
    match specification(alloc, text) {
        Ok(accepted) => Ok(Some(accepted)),
        Err(Refusal::Line(_)) => Ok(None),
        Err(Refusal::OutOfMemory) => Err(OutOfMemory),
    }
}
