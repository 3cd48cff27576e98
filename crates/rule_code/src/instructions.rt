//! An instruction.

/// What an instruction does with its slots.
#[derive(Clone, Copy)]
pub enum Kind {
    /// Puts the constructor with the values of the slots into the next slot.
    Build(u32),
    /// Puts what the function's call with the values of the slots gives into the next slot.
    Call(u32),
    /// Ends with the value of this slot.
    Give(usize),
    /// Ends with what the function's call with the values of the slots gives.
    Last(u32),
    /// Ends where the slot has the answer of a rule's test: the rule's number, the number of the
    /// test, and in the slots the values of the rule's variables.
    Decide {
        slot: usize,
        rule: usize,
        asked: usize,
    },
}

/// An instruction, and where the numbers of its slots are.
#[derive(Clone, Copy)]
pub(crate) struct Op {
    pub(crate) kind: Kind,
    pub(crate) start: usize,
    pub(crate) count: usize,
}
