//! Names by first occurrence.

ghost use Rattle.std.specs.Prelude.{◌≡◌, All, Contains, IfOk, IfSome};
ghost use Rattle.node_names.specs.Names.{AreDifferent};

use std::alloc::Global;
use term_core::{Name, OutOfMemory, VarId};

/// The names of the variables that occur, each once, by first occurrence; None where one of the
/// variables has no name.
pub(crate) fn names_met(
    alloc: Global,
    names: &[Name],
    occurrences: &[VarId],
) -> Result<Option<Vec<Name>>, OutOfMemory>
    requires { AreDifferent names.now }
    ensures different { IfOk result (λ found. IfSome found (λ met. AreDifferent met.items)) }
    ensures among { IfOk result (λ found. IfSome found (λ met.
        All (Contains names.now) met.items)) }
{
    let mut seen = vec![in alloc; false; names.len()]?;
    let mut met = Vec::new(alloc);
    for var in occurrences {
        let place = var.0 as usize;
        if place >= names.len() {
            return Ok(None);
        }
        if !seen[place] {
            seen[place] = true;
            met.push(names[place].copy(alloc)?)?;
        }
    }
    Ok(Some(met))
}
