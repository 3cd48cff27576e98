//! What is kept beside a bank.

ghost use Rattle.std.specs.Prelude.{List};
ghost use Rattle.value_bank.specs.Cells.{Cell};
ghost use Rattle.ground_eval.specs.Opened.{Partial};
ghost use Rattle.refuter.specs.Tables.{AreRightTables};

use bank_machine::KeptCalls;
use ground_eval::ConstantMarks;
use std::alloc::Global;

/// What a search keeps over its bank from one verdict to the next: what calls gave, and in which
/// values a constant for a variable occurs.
#[derive(Drop)]
pub(crate) struct Tables {
    pub(crate) kept: KeptCalls,
    pub(crate) marks: ConstantMarks,
}

impl Tables {
    /// Of no call and no value.
    pub(crate) fn new(alloc: Global) -> Tables
        ensures { (goal : Partial) (cells : List Cell) → AreRightTables goal cells result }
    {
        Tables {
            kept: KeptCalls::new(alloc),
            marks: ConstantMarks::new(alloc),
        }
    }
}
