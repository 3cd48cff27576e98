//! Variables as far as they are known, and equations of two of them.

ghost use Rattle.std.specs.Prelude.{◌≡◌, ◌++◌, ◌∷◌, [], OnOk};
ghost use Rattle.sort_check.specs.Entries.{entry_named};

use term_core::{Name, OutOfMemory, SortId};

/// A variable as far as it is known: its name, the place of its first word, and its sort if
/// something gave it one.
#[derive(Drop)]
pub(crate) struct Entry {
    pub(crate) name: Name,
    pub(crate) at: usize,
    pub(crate) sort: Option<SortId>,
}

/// An equation of two variables by their numbers, with the place of the right side.
#[derive(Clone, Copy)]
pub(crate) struct Pair {
    pub(crate) left: usize,
    pub(crate) right: usize,
    pub(crate) at: usize,
}

/// The number of the variable with this name.
pub(crate) fn place_of(entries: &[Entry], name: &[u8]) -> Option<usize>
    ensures { result ≡ entry_named entries.now name.now }
{
    entries
        .iter()
        .position(|entry| name == entry.name.as_bytes())
}

/// Adds a variable after the others.
pub(crate) fn add(entries: &mut Vec<Entry>, entry: Entry) -> Result<(), OutOfMemory>
    ensures { OnOk result (entries.new.items ≡ entries.old.items ++ entry ∷ []) }
{
    entries.push(entry)?;
    Ok(())
}
