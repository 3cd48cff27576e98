//! `NodeNames`, and lists of names.

ghost use Rattle.std.specs.Prelude.{◌≡◌, Contains, IfOk, IfSome};

use std::alloc::Global;
use term_core::{Name, OutOfMemory, Seq};

/// The names at a node: those of its clause's variables, and those of the variables that its
/// parent's step brought, by the numbers that these have in a pattern.
#[derive(Drop)]
pub struct NodeNames {
    pub variables: Seq<Name>,
    pub pattern: Seq<Name>,
}

/// The name of this number.
pub(crate) fn name_at(names: &[Name], number: u32) -> Option<&Name>
    ensures { IfSome result (λ name. Contains names.now name.now) }
{
    names.get(number as usize)
}

/// Copies of the names, in their order.
pub(crate) fn copy_names(alloc: Global, names: &[Name]) -> Result<Vec<Name>, OutOfMemory>
    ensures { IfOk result (λ made. made.items ≡ names.now) }
{
    let mut made = Vec::with_capacity(alloc, names.len())?;
    for name in names {
        made.push(name.copy(alloc)?)?;
    }
    Ok(made)
}
