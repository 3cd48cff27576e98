//! What an evaluation answers.

use term_core::Term;

/// What an evaluation found within its budget.
#[derive(Drop)]
pub enum Eval {
    /// The value, which has at most 10,000 symbols, and how many rule uses it cost.
    Value { value: Term, steps: u32 },
    /// A value of more symbols, at this cost.
    Large { steps: u32 },
    /// No value has a cost within the budget.
    Spent,
}

/// What the sides of an equation give within the budget.
#[derive(Drop)]
pub(crate) enum Sides {
    Same,
    Differ,
    Spent,
}

/// What the sides of an equation give within the budget, whatever the variables are that have no
/// value. `Unknown` if it depends on them, or if a side gives no value within the budget.
#[derive(Drop)]
pub(crate) enum OpenSides {
    Same,
    Differ,
    Unknown,
}
