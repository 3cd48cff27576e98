//! The names that a store was asked for.

ghost use Rattle.std.specs.Prelude.{◌≡◌, OnOk, OnErr};
ghost use Rattle.io_core.specs.Asked.{AddsName};

use std::alloc::Global;
use term_core::{Name, OutOfMemory, Seq};

/// Adds the name at the end of those that were asked for.
pub(crate) fn add_name(alloc: Global, asked: &mut Seq<Name>, name: &str) -> Result<(), OutOfMemory>
    ensures added { OnOk result (AddsName asked.old asked.new name.now) }
    ensures kept { OnErr result (asked.new ≡ asked.old) }
{
    asked.push(Name::of(alloc, name.as_bytes())?)
}
