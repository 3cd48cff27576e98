//! Instructions in one list.

ghost use Rattle.std.specs.Prelude.{◌≡◌, ◌<◌, ◌+◌, ◌^◌, ◌∷◌, ◌++◌, [], Some, OnOk, OnErr, length};
ghost use Rattle.std.specs.Prelude.{slice_get};
ghost use Rattle.rule_code.specs.Instructions.{instruction};

use crate::instructions::{Kind, Op};
use std::alloc::Global;
use std::marker::Model;
use term_core::OutOfMemory;

/// Instructions in their order. Contracts see their list.
#[derive(Drop)]
pub struct Code {
    ops: Vec<Op>,
    operands: Vec<usize>,
}

impl Model for Code {
    ghost use Rattle.std.specs.Prelude.{List};
    ghost use Rattle.rule_code.specs.Instructions.{Instruction, instructions, AreInRange};

    ghost Value = { List Instruction };

    ghost view = { λ a. instructions a.ops.items a.operands.items };

    ghost invariant = { λ a. AreInRange a.ops.items a.operands.items };
}

impl Code {
    /// No instructions.
    pub fn new(alloc: Global) -> Code
        ensures { result ≡ [] }
    {
        Code {
            ops: Vec::new(alloc),
            operands: Vec::new(alloc),
        }
    }

    /// How many instructions there are.
    pub fn len(&self) -> usize
        ensures { result ≡ length self.now }
    {
        self.ops.len()
    }

    /// The instruction at a place, and its slots.
    #[inline(always)]
    pub fn at(&self, place: usize) -> (Kind, &[usize])
        requires { place < length self.now }
        ensures is { slice_get self.now place ≡ Some (instruction result.0 result.1.now) }
        ensures room { place + 1 < 2 ^ 64 }
    {
        let op = self.ops[place];
        let end = op.start + op.count;
        (op.kind, &self.operands[op.start..end])
    }

    /// Adds an instruction with these slots.
    pub(crate) fn push(&mut self, kind: Kind, slots: &[usize]) -> Result<(), OutOfMemory>
        ensures added { OnOk result (self.new ≡ self.old ++ instruction kind slots.now ∷ []) }
        ensures kept { OnErr result (self.new ≡ self.old) }
    {
        let start = self.operands.len();
        let count = slots.len();
        self.operands.extend_from_slice(slots)?;
        self.ops.push(Op { kind, start, count })?;
        Ok(())
    }
}
