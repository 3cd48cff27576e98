//! What an evaluation answers.

use value_bank::ValueId;

/// What an evaluation over a bank found within its budget.
#[derive(Clone, Copy, Debug, PartialEq, Eq)]
pub enum BankEval {
    /// The place of the value, and how many rule uses it cost.
    Value { id: ValueId, steps: u32 },
    /// No value has a cost within the budget.
    Spent,
}
