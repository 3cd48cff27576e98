//! Which symbols were named before.

ghost use Rattle.std.specs.Prelude.{◌≡◌, [], IfOk, length};
ghost use Rattle.sort_check.specs.Marks.{AreMarks};

use spec_core::Signature;
use std::alloc::Global;
use term_core::OutOfMemory;

/// No mark at any symbol.
pub(crate) fn no_marks(alloc: Global, sig: &Signature) -> Result<Vec<bool>, OutOfMemory>
    ensures long { IfOk result (λ marks. length marks.items ≡ length sig.now.table) }
    ensures none { IfOk result (λ marks. AreMarks [] marks.items) }
{
    let marks = Vec::from_elem(alloc, false, sig.symbols() as usize)?;
    Ok(marks)
}
