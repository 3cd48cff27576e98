//! The place and the uses so far.

ghost use Rattle.std.specs.Prelude.{◌≡◌, OnOk, [], ◌∷◌, ◌++◌};

use std::alloc::Global;
use term_core::{OutOfMemory, Seq};

/// The place in the whole term at which a walk is, and the uses that it made, in order.
#[derive(Drop)]
pub(crate) struct Trace {
    pub(crate) place: Vec<u8>,
    pub(crate) uses: Vec<(Seq<u8>, u32)>,
}

impl Trace {
    /// At the root, before any use.
    pub(crate) fn new(alloc: Global) -> Trace
        ensures root { result.place.items ≡ [] }
        ensures unused { result.uses.items ≡ [] }
    {
        Trace {
            place: Vec::new(alloc),
            uses: Vec::new(alloc),
        }
    }

    /// Adds the use of the rule with this number at the place.
    pub(crate) fn add(&mut self, alloc: Global, number: u32) -> Result<(), OutOfMemory>
        ensures added { OnOk result
            (self.new.uses.items ≡ self.old.uses.items ++ (self.old.place.items, number) ∷ []) }
        ensures stays { self.new.place.items ≡ self.old.place.items }
    {
        let here = Seq::from_vec(Vec::from_slice(alloc, self.place.as_slice())?);
        self.uses.push((here, number))?;
        Ok(())
    }
}
