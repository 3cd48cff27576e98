//! Which cells of a bank lead to a constant.

ghost use Rattle.std.specs.Prelude.{◌≡◌, ◌↔◌, ◌⊎◌, ◌+◌, ◌<◌, ◌≤◌, ℕ, List, IfOk, IsTrue, length};
ghost use Rattle.term_core.specs.Tree.{Tree, Trees};
ghost use Rattle.value_bank.specs.Cells.{Cell, IsTerm, AreTerms};
ghost use Rattle.ground_eval.specs.Opened.{Partial, AreMarksOf};
ghost use Rattle.ground_eval.specs.Constants.{IsConstant, SomeHasConstant, ValuesAre, AreMarks};

use crate::answers::OpenSides;
use std::alloc::Global;
use term_core::{OutOfMemory, front};
use value_bank::{Bank, ValueId};

/// The symbols from `from` on and before `to`, which are constants for variables.
#[derive(Clone, Copy)]
pub(crate) struct Constants {
    pub(crate) from: u32,
    pub(crate) to: u32,
}

impl Constants {
    /// Whether the symbol is one of them.
    pub(crate) fn has(self, sym: u32) -> bool
        ensures { IsTrue result ↔ IsConstant self.from self.to sym }
    {
        self.from <= sym && sym < self.to
    }

    /// The constant of the variable with this number.
    pub(crate) fn of(self, variable: usize) -> u32
        requires { self.from + variable < self.to }
        ensures { result ≡ self.from + variable }
    {
        self.from + variable as u32
    }
}

/// For each of the first cells of a bank, whether a constant for a variable occurs in its term. It
/// is kept from one verdict over the bank to the next, and grows with the bank.
#[derive(Drop)]
pub struct ConstantMarks {
    marks: Vec<bool>,
}

impl ConstantMarks {
    /// Marks of no cell.
    pub fn new(alloc: Global) -> ConstantMarks
        ensures { (goal : Partial) (cells : List Cell) → AreMarksOf goal cells result }
    {
        ConstantMarks {
            marks: Vec::new(alloc),
        }
    }

    /// Marks the cells that were added. A cell whose arguments aren't earlier cells, which no bank
    /// has, is answered as memory that isn't there.
    fn grow(&mut self, bank: &Bank, constants: Constants) -> Result<(), OutOfMemory>
        requires { AreMarks constants.from constants.to bank.now self.old.marks.items }
        ensures right { AreMarks constants.from constants.to bank.now self.new.marks.items }
        ensures whole { IfOk result (λ _. length bank.now ≤ length self.new.marks.items) }
    {
        while self.marks.len() < bank.len() {
            let next = bank.number(ValueId(self.marks.len()));
            let (sym, args) = bank.cell(next);
            let inside = some_marked(&self.marks, args)?;
            self.marks.push(either(constants.has(sym), inside))?;
        }
        Ok(())
    }
}

/// Whether one of the places is marked, each of which has a mark.
fn some_marked(marks: &[bool], places: &[u32]) -> Result<bool, OutOfMemory>
    ensures { IfOk result (λ some. (c : ℕ) (d : ℕ) (cells : List Cell)
        → AreMarks c d cells marks.now
        → (ts : Trees) × AreTerms cells places.now ts × (IsTrue some ↔ SomeHasConstant c d ts)) }
{
    match front(places) {
        None => Ok(false),
        Some((place, rest)) => match marks.get(*place as usize) {
            None => Err(OutOfMemory),
            Some(mark) => {
                let others = some_marked(marks, rest)?;
                Ok(either(*mark, others))
            }
        },
    }
}

/// Whether one of the two holds, or both do.
fn either(a: bool, b: bool) -> bool
    ensures { IsTrue result ↔ (IsTrue a ⊎ IsTrue b) }
{
    a || b
}

/// What two values are whatever the constants stand for: the same if their places are; different
/// if their heads are two constructors and no constants, or if no constant occurs in them.
pub(crate) fn compare_values(
    bank: &Bank,
    constants: Constants,
    marks: &mut ConstantMarks,
    left: ValueId,
    right: ValueId,
) -> Result<OpenSides, OutOfMemory>
    requires marks { AreMarks constants.from constants.to bank.now marks.old.marks.items }
    requires there { (v : Tree) × (w : Tree) × IsTerm bank.now left.0 v
        × IsTerm bank.now right.0 w }
    ensures are { IfOk result (λ r. (v : Tree) (w : Tree) → IsTerm bank.now left.0 v
        → IsTerm bank.now right.0 w
        → ValuesAre constants.from constants.to v w r) }
    ensures marks { AreMarks constants.from constants.to bank.now marks.new.marks.items }
{
    if bank.same(left, right) {
        return Ok(OpenSides::Same);
    }
    let (first, _) = bank.cell(bank.number(left));
    let (second, _) = bank.cell(bank.number(right));
    if either(constants.has(first), constants.has(second)) {
        return Ok(OpenSides::Unknown);
    }
    if first != second {
        return Ok(OpenSides::Differ);
    }
    marks.grow(bank, constants)?;
    if either(marks.marks[left.0], marks.marks[right.0]) {
        return Ok(OpenSides::Unknown);
    }
    Ok(OpenSides::Differ)
}
