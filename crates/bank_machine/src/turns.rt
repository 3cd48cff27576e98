//! What a move answers.

/// What one move of the machine comes to.
#[derive(Clone, Copy)]
pub(crate) enum Turn {
    /// The machine went on, at this cost in uses of rules.
    Moved(u32),
    /// The last frame gives the value at this place.
    Done(u32),
    /// There is no value, or none within what is left of the budget.
    Stuck,
}
