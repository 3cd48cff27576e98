//! Tests of slots.

/// Whether the value of a slot is this symbol with this many arguments, which then become the next
/// slots.
#[derive(Clone, Copy)]
pub(crate) struct Test {
    pub(crate) slot: usize,
    pub(crate) sym: u32,
    pub(crate) count: usize,
}

/// Whether two slots have one value, for a variable that occurs twice on a left side.
#[derive(Clone, Copy)]
pub(crate) struct Repeat {
    pub(crate) first: usize,
    pub(crate) again: usize,
}
